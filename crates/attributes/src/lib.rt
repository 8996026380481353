// The tag's request call (01, "Reading and setting attributes"): GET, SET and ECHO. The directory is a lent list of rows: `request` takes them into a value
// and calls `request_in`.

#![tactic(auto)]

ghost use Rattle.attributes.specs.Serving.{Answered};
ghost use Rattle.attributes.specs.Inside.{tag_of};

mod answers;
mod calls;
mod credentials;
mod getting;
mod setting;
mod status;
mod values;

pub use answers::{RequestAnswer, RequestOutcome};
pub use calls::LEAST_OUTPUT;
use calls::request_in;
use directory::{Row, gather};

// Answers the request `s` of a tag with this eid, these credentials, this directory and these areas: 1 for an output below 512 octets, 26 for a directory
// that is not sound, reading's refusals, 24 for a request that is not served. A refusal, or a status other than 0, changes no attribute octet.
pub fn request<'s, 'c, 'r, 'f, 'w, 'o>(
    s: &'s [u8],
    eid: u64,
    credentials: &'c [u8],
    rows: &'r [Row],
    factory: &'f [u8],
    writable: &'w mut [u8],
    out: &'o mut [u8],
) -> RequestAnswer
    ensures { Answered (tag_of eid credentials.now rows.now factory.now writable.old) s.now out.old result writable.new out.new }
{
    request_in(s, eid, credentials, gather(rows), factory, writable, out)
}
