// Messages: whether octets are one, and the message written again.
ghost use Rattle.std.specs.Prelude.{◌≡◌, length};
ghost use Rattle.apdu_format.specs.Reading.{read_message};
ghost use Rattle.apdu_writing.specs.Answer as writing;
ghost use Rattle.apdu_rewriting.specs.Rewriting.{answer_of, rewrite_answer, rewrite_output};
ghost use Rattle.exports.specs.Messages.{choice_of, check_number, checked_number, written_number, UnpackingCheck, UnpackingRewritten};

use crate::refused::refused;
use apdu::Message;
use apdu_reading::Answer;
use apdu_rewriting::Rewritten;
use apdu_writing::WriteRefusal;
use refusals::Refusal;
use words::packed;

// A message's choice.
fn choice_of(m: Message) -> u8
    ensures { result ≡ choice_of m }
{
    match m {
        Message::ActionRequest(_) => 0,
        Message::ActionResponse(_) => 1,
        Message::EventRequest(_) => 2,
        Message::EventResponse(_) => 3,
        Message::SetRequest(_) => 4,
        Message::SetResponse(_) => 5,
        Message::GetRequest(_) => 6,
        Message::GetResponse(_) => 7,
        Message::Bst(_) => 8,
        Message::Vst(_) => 9,
    }
}

fn checked(answer: Answer) -> u64
    ensures { result ≡ checked_number answer }
{
    match answer {
        Answer::Message(m) => packed(0, choice_of(m), 0, 0),
        Answer::Refused(number, position) => packed(number, 0, position, 0),
    }
}

// Whether `s` is a message: kind is its choice. Refused as reading refuses; first is then the position.
#[unsafe(no_mangle)]
pub extern "C" fn semuryeon_check(s: &[u8]) -> u64
    ensures answer { result ≡ check_number (read_message s.now) }
    ensures unpacking { UnpackingCheck }
{
    checked(apdu_reading::read(s).answer)
}

fn written(octets: Result<usize, WriteRefusal>) -> u64
    ensures { result ≡ written_number (writing.answer_of octets) }
{
    match octets {
        Ok(octets) => packed(0, 0, octets, 0),
        Err(WriteRefusal::RecordOutOfRange) => refused(Refusal::RecordOutOfRange),
        Err(WriteRefusal::MessageTooLong(position)) => {
            packed(u8::from(Refusal::ApduTooLong), 0, position, 0)
        }
        Err(WriteRefusal::OutputTooSmall) => refused(Refusal::OutputTooSmall),
    }
}

fn rewritten(answer: Rewritten) -> u64
    ensures { result ≡ written_number (answer_of answer) }
{
    match answer {
        Rewritten::Refused(number, position) => packed(number, 0, position, 0),
        Rewritten::Written(octets) => written(octets),
    }
}

// Reads the message that `s` is and writes it to the front of `out`: first is how many octets it has. Refused as reading refuses, first being the
// position; then 22.
#[unsafe(no_mangle)]
pub extern "C" fn semuryeon_rewrite(s: &[u8], out: &mut [u8]) -> u64
    ensures answer { (result ≡ written_number (rewrite_answer s.now (length out.old))) × (out.new ≡ rewrite_output s.now out.old) }
    ensures unpacking { UnpackingRewritten }
{
    rewritten(apdu_rewriting::rewrite(s, out))
}
