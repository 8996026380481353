// A message as text (01, "Messages"): its kind and its present fields, refusals, heading and totals, appended to a lent buffer. No function asks
// anything of its caller.

#![tactic(auto)]

mod append;
mod containers;
mod entries;
mod fields;
mod kinds;
mod link;
mod message;
mod parts;
mod pen;
mod rows;

pub use append::{
    append_decimal, append_heading, append_hex, append_message, append_refusal, append_totals,
    append_word,
};
