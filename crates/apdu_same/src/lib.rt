// Comparing two messages.

#![tactic(auto)]

mod comparing;
mod entries;
mod fields;
mod kinds;
mod link;
mod message;
mod rows;

pub use comparing::same;
