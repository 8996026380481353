// GET: the values of the rows that are named.
ghost use Rattle.std.specs.Prelude.{◌≡◌, true, [], ◌+◌, ◌*◌, ◌≤◌, length};
ghost use Rattle.refusals.specs.Check.{first_of};
ghost use Rattle.bits.specs.Bits.{field};
ghost use Rattle.directory.specs.Directory.{sound_directory};
ghost use Rattle.directory.specs.Gathered.{list_of};
ghost use Rattle.attributes.specs.Serving.{ids_from, get_fault, get_faults, get_status, get_reply, get_refusal, getting, effect, told_of};
ghost use Rattle.attributes.specs.Inside.{tag_of, GetFits, Sends, number_of, status_of};

use crate::answers::{RequestAnswer, send, too_long};
use crate::credentials::are_exact;
use crate::status::Status;
use crate::values::{gather_values, row_at};
use apdu::{GetRequest, GetResponse, Message};
use directory::Directory;

// The status of the id at a bit place.
#[tactic(auto, unfolding(refusals::specs::Check::first_of, crate::specs::Serving::get_fault, crate::specs::Serving::denied))]
fn check_id(s: &[u8], at: usize, d: Directory, exact: bool) -> Result<(), Status>
    requires { (at ≤ 4096) × (length (list_of d) ≤ 32) }
    ensures { status_of result ≡ first_of (get_fault (list_of d) exact (field s.now (at + 1) 7)) }
{
    match row_at(s, at, d) {
        None => Err(Status::ArgumentError),
        Some(row) => {
            if row.protected && !exact {
                Err(Status::AccessDenied)
            } else {
                Ok(())
            }
        }
    }
}

// The status of the first faulty one of `count` ids from bit place `ids` on.
fn check_ids(s: &[u8], ids: usize, count: usize, d: Directory, exact: bool) -> Result<(), Status>
    requires { (ids + 8 * count ≤ 4096) × (length (list_of d) ≤ 32) }
    ensures { status_of result ≡ first_of (get_faults (list_of d) exact (ids_from s.now ids count)) }
{
    for i in 0..count {
        check_id(s, ids + 8 * i, d, exact)?;
    }
    Ok(())
}

// The return status.
#[tactic(auto, unfolding(refusals::specs::Check::first_of, crate::specs::Serving::get_status))]
fn check_get(
    s: &[u8],
    m: GetRequest,
    eid: u64,
    credentials: &[u8],
    d: Directory,
) -> Result<(), Status>
    requires { GetFits m × (length (list_of d) ≤ 32) }
    ensures { status_of result ≡ get_status (tag_of eid credentials.now (list_of d) [] []) s.now m }
{
    if m.eid != eid || !m.has_ids {
        return Err(Status::ArgumentError);
    }
    let exact = are_exact(
        s,
        credentials,
        m.has_credentials,
        m.credentials,
        m.credentials_length,
    );
    check_ids(s, m.ids, m.count as usize, d, exact)
}

// A reply with a status and no list.
fn send_status(s: &[u8], m: GetRequest, status: Status, out: &mut [u8]) -> RequestAnswer
    ensures { Sends (get_refusal s.now m (number_of status)) out.old result out.new }
{
    let reply = GetResponse {
        fill: 0,
        eid: m.eid,
        has_iid: m.has_iid,
        iid: m.iid,
        has_attributes: false,
        count: 0,
        rows: 0,
        has_ret: true,
        ret: u64::from(status),
    };
    send(Message::GetResponse(reply), apdu::no_rows(), s, out)
}

// A reply with the values.
fn send_values(
    s: &[u8],
    m: GetRequest,
    d: Directory,
    factory: &[u8],
    writable: &[u8],
    out: &mut [u8],
) -> RequestAnswer
    requires { GetFits m × (sound_directory (length factory.now) (length writable.now) (list_of d) ≡ true) }
    ensures { Sends (get_reply (tag_of 0 [] (list_of d) factory.now writable.now) s.now m) out.old result out.new }
{
    let values = gather_values(s, m.ids, m.count as usize, d, factory, writable);
    let reply = GetResponse {
        fill: 0,
        eid: m.eid,
        has_iid: m.has_iid,
        iid: m.iid,
        has_attributes: true,
        count: m.count,
        rows: m.count as usize,
        has_ret: false,
        ret: 0,
    };
    send(
        Message::GetResponse(reply),
        values.attributes,
        &values.octets,
        out,
    )
}

// A GET that is served.
pub(crate) fn get(
    s: &[u8],
    m: GetRequest,
    eid: u64,
    credentials: &[u8],
    d: Directory,
    factory: &[u8],
    writable: &[u8],
    out: &mut [u8],
) -> RequestAnswer
    requires { GetFits m × (sound_directory (length factory.now) (length writable.now) (list_of d) ≡ true) }
    ensures { effect (told_of result.outcome) writable.now out.new ≡ getting (tag_of eid credentials.now (list_of d) factory.now writable.now) s.now m out.old }
{
    if let Err(status) = check_get(s, m, eid, credentials, d) {
        return send_status(s, m, status, out);
    }
    let answer = send_values(s, m, d, factory, writable, out);
    if too_long(answer) {
        return send_status(s, m, Status::ComplexityLimitation, out);
    }
    answer
}
