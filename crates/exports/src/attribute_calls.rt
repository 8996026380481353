// The directory, as five words for each row (id, area, start, length, protected), and the request call.
ghost use Rattle.std.specs.Prelude.{◌≡◌};
ghost use Rattle.attributes.specs.Inside.{tag_of};
ghost use Rattle.attributes.specs.Serving.{told_of};
ghost use Rattle.words.specs.RowWords.{rows_in};
ghost use Rattle.words.specs.Word.{narrow_to};
ghost use Rattle.exports.specs.AttributeCalls.{outcome_number, RequestGives, LookupGives, UnpackingRequest, UnpackingLookup, LargeSought};

use crate::refused::refused;
use attributes::RequestOutcome;
use refusals::Refusal;
use words::{directory_in, narrow, packed, put_part};

const PART_WORDS: usize = 3;

fn told(outcome: RequestOutcome) -> u64
    ensures { result ≡ outcome_number (told_of outcome) }
{
    match outcome {
        RequestOutcome::Refused(number) => packed(number, 0, 0, 0),
        RequestOutcome::RefusedAt(number, position) => packed(number, 0, position, 0),
        RequestOutcome::NoReply => packed(0, 0, 0, 0),
        RequestOutcome::Reply(octets) => packed(0, 1, octets, 0),
    }
}

// Answers a request: kind 0 is no reply, 1 a reply at the front of `out`, whose octets are first. Refused 1, 26, as reading refuses (first being the
// position), 24.
#[unsafe(no_mangle)]
pub extern "C" fn semuryeon_request(
    s: &[u8],
    eid: u32,
    credentials: &[u8],
    rows: &[u32],
    factory: &[u8],
    writable: &mut [u8],
    out: &mut [u8],
) -> u64
    ensures answer { RequestGives (tag_of eid credentials.now (rows_in rows.now) factory.now writable.old) s.now out.old result writable.new out.new }
    ensures unpacking { UnpackingRequest }
{
    let directory = directory_in(rows);
    let answer = attribute_promises::request_among(
        s,
        u64::from(eid),
        credentials,
        directory.rows,
        directory.count,
        factory,
        writable,
        out,
    );
    told(answer.outcome)
}

// Where an attribute lies: kind 1 is known, and its area (0 factory, 1 writable), start and length are the first three words of `part`; kind 0 is unknown,
// and they are 0. Refused 26; then 22 where `part` has fewer than three words.
#[unsafe(no_mangle)]
pub extern "C" fn semuryeon_lookup(
    id: u32,
    rows: &[u32],
    factory: usize,
    writable: usize,
    part: &mut [u32],
) -> u64
    ensures answer { LookupGives factory writable (rows_in rows.now) (narrow_to 8 id) part.old result part.new }
    ensures unpacking { UnpackingLookup }
    ensures large_id { LargeSought }
{
    let directory = directory_in(rows);
    let sought = narrow(id);
    match directory::knows_among(directory.rows, directory.count, factory, writable, sought) {
        Err(refusal) => refused(refusal),
        Ok(_) if part.len() < PART_WORDS => refused(Refusal::OutputTooSmall),
        Ok(known) => {
            put_part(
                directory::row_for(directory, factory, writable, sought),
                part,
            );
            packed(0, u8::from(known), 0, 0)
        }
    }
}
