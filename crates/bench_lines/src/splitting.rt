// Lines out of octets that come in parts.
ghost use Rattle.std.specs.Prelude.{◌≡◌, ◌≤◌, MatchOption, length};
ghost use Rattle.bench_lines.specs.Splitting.{line_end, FirstLine, kept_line, buffer_after};
ghost use Rattle.bench_lines.specs.RoundTrip.{KeepingParts, ReadingKept};

use crate::LINE_FEED;
use crate::recording::find;

// The place of the first line feed from place `from` on, or the input's end.
#[tactic(auto, unfolding(crate::specs::Splitting::line_end))]
pub fn line_end(input: &[u8], from: usize) -> usize
    ensures { result ≡ line_end input.now from }
{
    find(input, from, LINE_FEED)
}

// The line before the first line feed, and what stands behind it; none where there is no line feed.
pub fn first_line(input: &[u8]) -> Option<(&[u8], &[u8])>
    ensures { MatchOption result (length input.now ≤ line_end input.now 0) (λ parts. FirstLine input.now parts.0.now parts.1.now) }
{
    let end = line_end(input, 0);
    if end < input.len() {
        Some((&input[..end], &input[end + 1..]))
    } else {
        None
    }
}

// Puts a part of a line behind the `held` octets that `buffer` has of it, as much as it has room for, and answers how many it then has.
pub fn keep_part(part: &[u8], buffer: &mut [u8], held: usize) -> usize
    ensures answer { (result ≡ length (kept_line buffer.old held part.now)) × (buffer.new ≡ buffer_after (kept_line buffer.old held part.now) buffer.old) }
    ensures parts { KeepingParts }
    ensures whole { ReadingKept }
{
    let most = buffer.len();
    if most < held {
        return most;
    }
    let n = part.len().min(most - held);
    buffer[held..held + n].copy_from_slice(&part[..n]);
    held + n
}
