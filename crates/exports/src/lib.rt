// What C and Rust programs link: the proved calls over numbers and slices. The table and the link live in words that the caller lends; an answer is one
// number (`words::packed`). include/semuryeon.h declares each function; any length and any content is answered.

#![tactic(auto)]

mod attribute_calls;
mod bench_calls;
mod fragments;
mod headers;
mod link_calls;
mod messages;
mod refused;
mod strings;
