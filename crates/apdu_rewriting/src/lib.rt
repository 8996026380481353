// Reading a message and writing what was read: the same octets come back.

#![tactic(auto)]

ghost use Rattle.std.specs.Prelude.{◌≡◌, length};
ghost use Rattle.apdu_format.specs.RoundTrip.{ReadingEncoded, EncodingRead, OneEncoding, SameEncoded, EncodingsAccepted, LevelsSuffice};
ghost use Rattle.apdu_rewriting.specs.Rewriting.{answer_of, rewrite_answer, rewrite_output};
ghost use Rattle.apdu_rewriting.specs.RoundTrip.{WritingRead, ReadingWritten, ReadingExact};

use apdu_reading::{Answer, read};
use apdu_writing::{WriteRefusal, write};

#[derive(Clone, Copy, Debug, PartialEq, Eq)]
pub enum Rewritten {
    // Reading's refusal: its number and position.
    Refused(u8, usize),
    // What writing answers; for a message that was read 22 is its only refusal.
    Written(Result<usize, WriteRefusal>),
}

// Reads the message that `s` is and writes it to the front of `out`: reading's refusal, else 22 where `out` is shorter than `s`, else the octets of `s`.
// Every other octet of `out` stays, and a refusal changes nothing. Beside its answer stand demand 2's round trips, about every record and about its values.
pub fn rewrite(s: &[u8], out: &mut [u8]) -> Rewritten
    ensures answer { (answer_of result ≡ rewrite_answer s.now (length out.old)) × (out.new ≡ rewrite_output s.now out.old) }
    ensures writing_read { WritingRead }
    ensures reading_written { ReadingWritten }
    ensures reading_exact { ReadingExact }
    ensures encoding_read { EncodingRead }
    ensures reading_encoded { ReadingEncoded }
    ensures one_encoding { OneEncoding }
    ensures same_encoded { SameEncoded }
    ensures encodings_accepted { EncodingsAccepted }
    ensures levels_suffice { LevelsSuffice }
{
    let r = read(s);
    let answer = r.answer;
    match answer {
        Answer::Refused(number, position) => Rewritten::Refused(number, position),
        Answer::Message(m) => {
            let lists = r.lists;
            let rows = lists.rows;
            let entries = lists.entries;
            let written = write(m, rows, entries, s, out);
            Rewritten::Written(written)
        }
    }
}
