// The lines of the bench program (01, "The bench program"): recorded lines read, answers and totals as text, and lines out of octets that come
// in parts. No function asks anything of its caller.

#![tactic(auto)]

ghost use Rattle.std.specs.Prelude.{◌≡◌};
ghost use Rattle.bench_lines.specs.Line.{line_refusal_number};

mod digits;
mod hex;
mod recording;
mod splitting;
mod text;

use refusals::Refusal;

// The most characters of a line, without its line feed.
pub const LONGEST_LINE: usize = 600;

const SPACE: u8 = b' ';

const LINE_FEED: u8 = b'\n';

// A line's LID and tick, and how many octets of LSDU stand at the front of the lent buffer.
#[derive(Clone, Copy, Debug, PartialEq, Eq)]
pub struct Line {
    pub lid: u32,
    pub tick: u32,
    pub octets: usize,
}

// Why a line is not read: it has not its form, or the lent buffer is too short for its octets.
#[derive(Clone, Copy, Debug, PartialEq, Eq)]
pub enum LineRefusal {
    NotALine,
    OutputTooSmall,
}

impl From<LineRefusal> for u8 {
    ghost from_gives = { λ refusal number. number ≡ line_refusal_number refusal };

    fn from(refusal: LineRefusal) -> u8 {
        match refusal {
            LineRefusal::NotALine => 0,
            LineRefusal::OutputTooSmall => u8::from(Refusal::OutputTooSmall),
        }
    }
}

// The answers that a line of output can have. A refusal's number may be any: the text shows it as it is.
#[derive(Clone, Copy, Debug, PartialEq, Eq)]
pub enum BenchAnswer {
    Held,
    Whole,
    Refused(u8),
}

// Octets, over all lines.
#[derive(Clone, Copy, Debug, PartialEq, Eq)]
pub struct Totals {
    pub accepted: u64,
    pub delivered: u64,
    pub dropped: u64,
    pub held: u64,
}

pub use hex::read_hex;
pub use recording::read_line;
pub use splitting::{first_line, keep_part, line_end};
pub use text::{append_answer, append_heading, append_totals};
