// The request call over the directory by value.
ghost use Rattle.std.specs.Prelude.{◌≡◌, true, length};
ghost use Rattle.directory.specs.Directory.{sound_directory};
ghost use Rattle.directory.specs.Gathered.{list_of};
ghost use Rattle.attributes.specs.Serving.{Answered, carried, echo_reply, effect, told_of};
ghost use Rattle.attributes.specs.Inside.{tag_of, Fits, Sends};

use crate::answers::{RequestAnswer, RequestOutcome, is_served, send};
use crate::getting::get;
use crate::setting::set;
use apdu::{ActionResponse, Message, Request};
use apdu_reading::{Answer, read};
use directory::{Directory, sound_in};

// The octets that a reply may need.
pub const LEAST_OUTPUT: usize = 512;

const UNSERVED: RequestAnswer = RequestAnswer {
    outcome: RequestOutcome::Refused(refusals::NOT_SERVED),
};

// An ECHO that is served: the same string.
fn echo(s: &[u8], m: Request, out: &mut [u8]) -> RequestAnswer
    ensures { Sends (echo_reply s.now m) out.old result out.new }
{
    let reply = ActionResponse {
        fill: 0,
        eid: m.eid,
        has_iid: m.has_iid,
        iid: m.iid,
        has_parameter: true,
        kind: m.kind,
        n: m.n,
        start: m.start,
        rows: 0,
        has_ret: false,
        ret: 0,
    };
    send(Message::ActionResponse(reply), apdu::no_rows(), s, out)
}

// Carries out a request that is served.
fn carry_out(
    s: &[u8],
    m: Message,
    attributes: [apdu::Row; 32],
    eid: u64,
    credentials: &[u8],
    d: Directory,
    factory: &[u8],
    writable: &mut [u8],
    out: &mut [u8],
) -> RequestAnswer
    requires { Fits m × (sound_directory (length factory.now) (length writable.old) (list_of d) ≡ true) }
    ensures { effect (told_of result.outcome) writable.new out.new ≡ carried (tag_of eid credentials.now (list_of d) factory.now writable.old) s.now m attributes out.old }
{
    match m {
        Message::ActionRequest(x) => echo(s, x, out),
        Message::SetRequest(x) => set(s, x, attributes, eid, credentials, d, writable, out),
        Message::GetRequest(x) => get(s, x, eid, credentials, d, factory, writable, out),
        _ => UNSERVED,
    }
}

// Answers the request `s` of a tag with this eid, these credentials, this directory and these areas: 1 for an output below 512 octets, 26 for a directory
// that is not sound, reading's refusals, 24 for a request that is not served. A refusal, or a status other than 0, changes no attribute octet.
pub(crate) fn request_in(
    s: &[u8],
    eid: u64,
    credentials: &[u8],
    d: Directory,
    factory: &[u8],
    writable: &mut [u8],
    out: &mut [u8],
) -> RequestAnswer
    ensures { Answered (tag_of eid credentials.now (list_of d) factory.now writable.old) s.now out.old result writable.new out.new }
{
    let reading = read(s);
    if out.len() < LEAST_OUTPUT {
        return RequestAnswer {
            outcome: RequestOutcome::Refused(refusals::STORE_OR_OUTPUT_LENGTH),
        };
    }
    if !sound_in(d, factory.len(), writable.len()) {
        return RequestAnswer {
            outcome: RequestOutcome::Refused(refusals::LIST_NOT_SOUND),
        };
    }
    match reading.answer {
        Answer::Refused(k, p) => RequestAnswer {
            outcome: RequestOutcome::RefusedAt(k, p),
        },
        Answer::Message(m) => {
            if !is_served(m) {
                return UNSERVED;
            }
            carry_out(
                s,
                m,
                reading.lists.rows,
                eid,
                credentials,
                d,
                factory,
                writable,
                out,
            )
        }
    }
}
