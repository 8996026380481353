// One line of a recording through the joining: read, handed on as a fragment, and what to show of it (01, "The bench program").

#![tactic(auto)]

mod answers;
mod joining;

use bench_lines::BenchAnswer;

// A line's answer, its two numbers, and what it adds to the totals.
#[derive(Clone, Copy, Debug, PartialEq, Eq)]
pub struct Columns {
    pub answer: BenchAnswer,
    pub octets: u64,
    pub dropped: u64,
    pub accepted: u64,
    pub delivered: u64,
}

pub use answers::no_octets;
pub use joining::{front, shown, take_line};
