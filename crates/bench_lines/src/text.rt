// The text of what the bench prints, appended to a lent buffer.
ghost use Rattle.std.specs.Prelude.{◌≡◌, ◌+◌, ◌≤◌, length};
ghost use Rattle.bench_lines.specs.Inside.{Placed};
ghost use Rattle.bench_lines.specs.Text.{number_text, named_text, answer_text, heading_text, answer_line_text, totals_text, has_room, append_text, output_after};
ghost use Rattle.refusals.specs.Refusal.{answer_of};

use crate::digits::{put_digits, width_of};
use crate::{BenchAnswer, LINE_FEED, SPACE, Totals};
use refusals::Refusal;

// Whether so many octets lie inside a buffer from place `at` on.
#[tactic(auto, using(std::proofs::lemmas::Bool::Decides::nat_tests), unfolding(crate::specs::Text::has_room))]
fn has_room(room: usize, at: usize, octets: usize) -> bool
    ensures { result ≡ has_room room at octets }
{
    octets <= room && at <= room - octets
}

// Writes a word to `out` from place `at` on, and answers the place behind it.
fn put_word(out: &mut [u8], at: usize, word: &[u8]) -> usize
    requires { at + length word.now ≤ length out.old }
    ensures { Placed out.old at word.now out.new result }
{
    for k in 0..word.len() {
        out[at + k] = word[k];
    }
    at + word.len()
}

// Writes a number in decimal and the character behind it.
fn put_number(out: &mut [u8], at: usize, n: u64, end: u8) -> usize
    requires { at + length (number_text n end) ≤ length out.old }
    ensures { Placed out.old at (number_text n end) out.new result }
{
    let k = width_of(n);
    put_digits(out, at, k, n);
    out[at + k] = end;
    at + k + 1
}

// Writes a word, a number behind it, and the character behind that.
fn put_named(out: &mut [u8], at: usize, word: &[u8], n: u64, end: u8) -> usize
    requires { at + length (named_text word.now n end) ≤ length out.old }
    ensures { Placed out.old at (named_text word.now n end) out.new result }
{
    let next = put_word(out, at, word);
    put_number(out, next, n, end)
}

// How many octets an answer takes, with the space behind it.
fn answer_octets(answer: BenchAnswer) -> usize
    ensures { (result ≡ length (answer_text answer)) × (result ≤ 29) }
{
    match answer {
        BenchAnswer::Held => 5,
        BenchAnswer::Whole => 6,
        BenchAnswer::Refused(number) => 9 + width_of(u64::from(number)),
    }
}

// Writes an answer and a space.
fn put_answer(out: &mut [u8], at: usize, answer: BenchAnswer) -> usize
    requires { at + length (answer_text answer) ≤ length out.old }
    ensures { Placed out.old at (answer_text answer) out.new result }
{
    match answer {
        BenchAnswer::Held => put_word(out, at, b"held "),
        BenchAnswer::Whole => put_word(out, at, b"whole "),
        BenchAnswer::Refused(number) => put_named(out, at, b"refused-", u64::from(number), SPACE),
    }
}

// Appends the heading from place `at` on; refused, and nothing written, where it has no room.
pub fn append_heading(out: &mut [u8], at: usize) -> Result<usize, Refusal>
    ensures { (answer_of result ≡ append_text out.old at heading_text) × (out.new ≡ output_after (answer_of result) out.old at heading_text) }
{
    if !has_room(out.len(), at, 27) {
        return Err(Refusal::OutputTooSmall);
    }
    Ok(put_word(out, at, b"line answer octets dropped\n"))
}

// Appends the line of an answer from place `at` on; refused, and nothing written, where it has no room.
pub fn append_answer(
    line: u64,
    answer: BenchAnswer,
    octets: u64,
    dropped: u64,
    out: &mut [u8],
    at: usize,
) -> Result<usize, Refusal>
    ensures { (answer_of result ≡ append_text out.old at (answer_line_text line answer octets dropped)) × (out.new ≡ output_after (answer_of result) out.old at (answer_line_text line answer octets dropped)) }
{
    let n = width_of(line) + answer_octets(answer) + width_of(octets) + width_of(dropped) + 3;
    if !has_room(out.len(), at, n) {
        return Err(Refusal::OutputTooSmall);
    }
    let second = put_number(out, at, line, SPACE);
    let third = put_answer(out, second, answer);
    let fourth = put_number(out, third, octets, SPACE);
    Ok(put_number(out, fourth, dropped, LINE_FEED))
}

// Appends the totals from place `at` on; refused, and nothing written, where they have no room.
pub fn append_totals(totals: Totals, out: &mut [u8], at: usize) -> Result<usize, Refusal>
    ensures { (answer_of result ≡ append_text out.old at (totals_text totals)) × (out.new ≡ output_after (answer_of result) out.old at (totals_text totals)) }
{
    let n = width_of(totals.accepted)
        + width_of(totals.delivered)
        + width_of(totals.dropped)
        + width_of(totals.held)
        + 36;
    if !has_room(out.len(), at, n) {
        return Err(Refusal::OutputTooSmall);
    }
    let second = put_named(out, at, b"accepted ", totals.accepted, SPACE);
    let third = put_named(out, second, b"delivered ", totals.delivered, SPACE);
    let fourth = put_named(out, third, b"dropped ", totals.dropped, SPACE);
    Ok(put_named(out, fourth, b"held ", totals.held, LINE_FEED))
}
