// Writing a message.

#![tactic(auto)]

mod component;
mod container;
mod counted;
mod entries;
mod kinds;
mod link;
mod lists;
mod message;
mod quill;
mod rows;
mod writing;

pub use writing::{WriteRefusal, well_formed, write};
