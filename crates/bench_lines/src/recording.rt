// A line of a recording.
ghost use Rattle.std.specs.Prelude.{◌≡◌, ◌+◌, length, drop};
ghost use Rattle.bench_lines.specs.Line.{before, has_form, read_line, line_answer, lsdu_after};
ghost use Rattle.bench_lines.specs.Inside.{are_fields};
ghost use Rattle.bench_lines.specs.RoundTrip.{ReadingPrinted};

use crate::digits::{are_digits, number_of, put_octets};
use crate::{LONGEST_LINE, Line, LineRefusal, SPACE};

// The digits of a LID, and the place of the tick behind them and a space.
const LID_DIGITS: usize = 7;

const TICK_PLACE: usize = 8;

// The place of the first `mark` from place `from` on, or the end.
pub(crate) fn find(s: &[u8], from: usize, mark: u8) -> usize
    ensures { result ≡ from + before mark (drop from s.now) }
{
    let rest = s.get(from..).unwrap_or(&[]);
    from + rest.iter().position(|c| *c == mark).unwrap_or(rest.len())
}

// Whether a line's three texts are a LID of hex digits, a tick and an LSDU.
#[tactic(auto, using(std::proofs::lemmas::Bool::Decides::nat_tests), unfolding(crate::specs::Inside::are_fields, crate::specs::Inside::small))]
fn are_fields(lid: &[u8], tick: &[u8], lsdu: &[u8]) -> bool
    ensures { result ≡ are_fields lid.now tick.now lsdu.now }
{
    are_digits(lid, 16)
        && !tick.is_empty()
        && are_digits(tick, 10)
        && number_of(tick, 10).is_some()
        && lsdu.len() % 2 == 0
        && are_digits(lsdu, 16)
}

// Whether a line has 01's form.
fn has_form(line: &[u8]) -> bool
    ensures { result ≡ has_form line.now }
{
    if LONGEST_LINE < line.len() || find(line, 0, SPACE) != LID_DIGITS {
        return false;
    }
    let second = find(line, TICK_PLACE, SPACE);
    second < line.len()
        && are_fields(
            &line[..LID_DIGITS],
            &line[TICK_PLACE..second],
            &line[second + 1..],
        )
}

// The fields of a line, and its LSDU at the front of `lsdu`; refused where it has not 01's form, then where `lsdu` is too short.
pub fn read_line(line: &[u8], lsdu: &mut [u8]) -> Result<Line, LineRefusal>
    ensures answer { (line_answer result ≡ read_line line.now (length lsdu.old)) × (lsdu.new ≡ lsdu_after (line_answer result) line.now lsdu.old) }
    ensures printed { ReadingPrinted }
{
    if !has_form(line) {
        return Err(LineRefusal::NotALine);
    }
    let second = find(line, TICK_PLACE, SPACE);
    let octets = (line.len() - second - 1) / 2;
    if lsdu.len() < octets {
        return Err(LineRefusal::OutputTooSmall);
    }
    let lid = number_of(&line[..LID_DIGITS], 16).unwrap();
    let tick = number_of(&line[TICK_PLACE..second], 10).unwrap();
    put_octets(&line[second + 1..], lsdu);
    Ok(Line { lid, tick, octets })
}
