// Writing a message.
ghost use Rattle.std.specs.Prelude.{◌≡◌, length};
ghost use Rattle.apdu.specs.Sound.{well_formed};
ghost use Rattle.apdu_writing.specs.Answer.{answer_of, write_answer, write_output};

use crate::message::put_message;
use crate::quill::Quill;
use apdu::{Entry, Message, Row};

// Whether a record keeps the condition of 23: each range, limit and depth of what is present, and each part inside `lent`.
pub fn well_formed(message: Message, rows: [Row; 32], entries: [Entry; 32], lent: &[u8]) -> bool
    ensures { result ≡ well_formed lent.now message entries rows }
{
    let mut none: [u8; 1] = [0; 1];
    let size = put_message(
        lent,
        message,
        entries,
        rows,
        &mut none,
        Quill {
            at: 0,
            room: 32,
            ok: true,
        },
    );
    size.ok
}

// Why a message is not written; 21 carries its position, the octets that a message has at most.
#[derive(Clone, Copy, Debug, PartialEq, Eq)]
pub enum WriteRefusal {
    RecordOutOfRange,
    MessageTooLong(usize),
    OutputTooSmall,
}

// Writes the message to the front of `out` and gives its octets; every other octet of `out` stays. A refusal changes nothing: 23 where the record breaks a
// range, a limit or a depth of what is present, or a part lies outside `lent`; then 21 above 512 octets; then 22 where `out` is too short.
pub fn write(
    message: Message,
    rows: [Row; 32],
    entries: [Entry; 32],
    lent: &[u8],
    out: &mut [u8],
) -> Result<usize, WriteRefusal>
    ensures { (answer_of result ≡ write_answer lent.now message entries rows (length out.old)) × (out.new ≡ write_output lent.now message entries rows out.old) }
{
    let mut page: [u8; 512] = [0; 512];
    let end = put_message(
        lent,
        message,
        entries,
        rows,
        &mut page,
        Quill {
            at: 0,
            room: 32,
            ok: true,
        },
    );
    if !end.ok {
        return Err(WriteRefusal::RecordOutOfRange);
    }
    let octets = end.at as usize;
    if apdu::LONGEST_MESSAGE < octets {
        return Err(WriteRefusal::MessageTooLong(apdu::LONGEST_MESSAGE));
    }
    if out.len() < octets {
        return Err(WriteRefusal::OutputTooSmall);
    }
    let copied = bits::copy_string(&page, 0, octets, out, 0);
    Ok(octets)
}
