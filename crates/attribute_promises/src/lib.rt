// The request call over rows by value, with what is proved of it besides its definition. It stands apart from `attributes`, so that a change of that crate's
// code is checked quickly.

#![tactic(auto)]

ghost use Rattle.std.specs.Prelude.{◌≤◌, take};
ghost use Rattle.directory.specs.Gathered.{list_of};
ghost use Rattle.attributes.specs.Inside.{tag_of};
ghost use Rattle.attributes.specs.Serving.{Answered};
ghost use Rattle.attribute_promises.specs.Promises.{ShortReplies, RepliesReadBack, FaultyKeeps, ProtectedUnseen, LengthKept, OctetKept, RowKept, ProtectedKept, SetThenGet, RefusalKeeps, OneEffect, Determined, RefusesOnly};

use apdu_reading::read;
use attributes::{LEAST_OUTPUT, RequestAnswer, RequestOutcome};
use directory::{MOST_ROWS, Row};

fn request_lent(
    s: &[u8],
    eid: u64,
    credentials: &[u8],
    rows: [Row; 32],
    count: usize,
    factory: &[u8],
    writable: &mut [u8],
    out: &mut [u8],
) -> RequestAnswer
    requires { count ≤ 32 }
    ensures { Answered (tag_of eid credentials.now (take count rows) factory.now writable.old) s.now out.old result writable.new out.new }
{
    attributes::request(s, eid, credentials, &rows[..count], factory, writable, out)
}

// The request call of a tag whose directory is the first `count` rows: 1 for an output below 512 octets, 26 for a count above 32 or a directory that is not
// sound, reading's refusals, 24 for a request that is not served. A refusal, or a status other than 0, changes no attribute octet. Its clauses behind the first are what
// is proved of every call (specs/Promises.antt).
pub fn request_among(
    s: &[u8],
    eid: u64,
    credentials: &[u8],
    rows: [Row; 32],
    count: usize,
    factory: &[u8],
    writable: &mut [u8],
    out: &mut [u8],
) -> RequestAnswer
    ensures answer { Answered (tag_of eid credentials.now (list_of (record { rows = rows; count = count })) factory.now writable.old) s.now out.old result writable.new out.new }
    ensures short { ShortReplies }
    ensures reads_back { RepliesReadBack }
    ensures faulty { FaultyKeeps }
    ensures unseen { ProtectedUnseen }
    ensures length { LengthKept }
    ensures octet_kept { OctetKept }
    ensures row_kept { RowKept }
    ensures protected_kept { ProtectedKept }
    ensures set_then_get { SetThenGet }
    ensures refusal_keeps { RefusalKeeps }
    ensures one_effect { OneEffect }
    ensures determined { Determined }
    ensures refuses_only { RefusesOnly }
{
    if MOST_ROWS < count {
        let _reading = read(s);
        if out.len() < LEAST_OUTPUT {
            return RequestAnswer {
                outcome: RequestOutcome::Refused(refusals::STORE_OR_OUTPUT_LENGTH),
            };
        }
        return RequestAnswer {
            outcome: RequestOutcome::Refused(refusals::LIST_NOT_SOUND),
        };
    }
    request_lent(s, eid, credentials, rows, count, factory, writable, out)
}
