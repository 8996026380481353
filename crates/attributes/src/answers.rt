// What a request call answers, and how a reply is sent.
ghost use Rattle.std.specs.Prelude.{◌≡◌};
ghost use Rattle.attributes.specs.Serving.{is_echo, served, too_long, told_of};
ghost use Rattle.attributes.specs.Inside.{Sends};

use apdu::{Message, Request, no_entries};
use apdu_writing::{WriteRefusal, write};

// A refusal's number, with its position where it has one; no reply; or a reply of so many octets at the output's front.
#[derive(Clone, Copy, Debug, PartialEq, Eq)]
pub enum RequestOutcome {
    Refused(u8),
    RefusedAt(u8, usize),
    NoReply,
    Reply(usize),
}

#[derive(Clone, Copy, Debug, PartialEq, Eq)]
pub struct RequestAnswer {
    pub outcome: RequestOutcome,
}

// The action type of ECHO.
const ECHO: u64 = 15;

#[tactic(auto, unfolding(crate::specs::Serving::is_echo))]
fn is_echo(m: Request) -> bool
    ensures { result ≡ is_echo m }
{
    m.service == ECHO && m.eid == 0 && m.mode && m.has_parameter && m.kind == apdu::OCTET_STRING
}

// Whether a request is served: GET, SET, ECHO.
#[tactic(auto, unfolding(crate::specs::Serving::served))]
pub(crate) fn is_served(m: Message) -> bool
    ensures { result ≡ served m }
{
    match m {
        Message::ActionRequest(x) => is_echo(x),
        Message::SetRequest(_) | Message::GetRequest(_) => true,
        _ => false,
    }
}

// Writes a reply to the output's front.
pub(crate) fn send(
    message: Message,
    attributes: [apdu::Row; 32],
    lent: &[u8],
    out: &mut [u8],
) -> RequestAnswer
    ensures { Sends (record { message = message; attributes = attributes; lent = lent.now }) out.old result out.new }
{
    let outcome = match write(message, attributes, no_entries(), lent, out) {
        Ok(octets) => RequestOutcome::Reply(octets),
        Err(WriteRefusal::RecordOutOfRange) => {
            RequestOutcome::Refused(refusals::RECORD_OUT_OF_RANGE)
        }
        Err(WriteRefusal::MessageTooLong(p)) => {
            RequestOutcome::RefusedAt(refusals::APDU_TOO_LONG, p)
        }
        Err(WriteRefusal::OutputTooSmall) => RequestOutcome::Refused(refusals::OUTPUT_TOO_SMALL),
    };
    RequestAnswer { outcome }
}

// Whether a reply was too long to be written.
#[tactic(auto, unfolding(crate::specs::Serving::too_long, crate::specs::Serving::told_of))]
pub(crate) fn too_long(a: RequestAnswer) -> bool
    ensures { result ≡ too_long (told_of a.outcome) }
{
    matches!(
        a.outcome,
        RequestOutcome::RefusedAt(refusals::APDU_TOO_LONG, _)
    )
}
