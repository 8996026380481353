// SET: the values of the rows that are named, all or none.
ghost use Rattle.std.specs.Prelude.{◌≡◌, [], ◌≤◌, length, take};
ghost use Rattle.refusals.specs.Check.{first_of};
ghost use Rattle.directory.specs.Gathered.{list_of};
ghost use Rattle.attributes.specs.Serving.{set_fault, set_faults, set_status, set_row, set_rows, set_reply, setting, effect, told_of};
ghost use Rattle.attributes.specs.Inside.{tag_of, SetFits, Sends, status_of};

use crate::answers::{RequestAnswer, RequestOutcome, send};
use crate::credentials::are_exact;
use crate::status::Status;
use crate::values::look_up;
use apdu::{Message, Response, SetRequest};
use directory::{Directory, NO_ROW};

const OCTET_STRING: u8 = apdu::OCTET_STRING as u8;

// The status of an attribute.
#[tactic(auto, unfolding(refusals::specs::Check::first_of, crate::specs::Serving::set_fault, crate::specs::Serving::denied))]
fn check_attribute(a: apdu::Row, d: Directory, exact: bool) -> Result<(), Status>
    requires { length (list_of d) ≤ 32 }
    ensures { status_of result ≡ first_of (set_fault (list_of d) exact a) }
{
    match look_up(d, u16::from(a.id)) {
        None => Err(Status::ArgumentError),
        Some(row) => {
            if a.kind != OCTET_STRING || a.n as usize != row.length {
                Err(Status::ArgumentError)
            } else if !row.writable || row.protected && !exact {
                Err(Status::AccessDenied)
            } else {
                Ok(())
            }
        }
    }
}

// The status of the first faulty one of the first `count` attributes.
fn check_attributes(
    attributes: [apdu::Row; 32],
    count: usize,
    d: Directory,
    exact: bool,
) -> Result<(), Status>
    requires { (count ≤ 32) × (length (list_of d) ≤ 32) }
    ensures { status_of result ≡ first_of (set_faults (list_of d) exact (take count attributes)) }
{
    for i in 0..count {
        check_attribute(attributes[i], d, exact)?;
    }
    Ok(())
}

// The return status.
fn check_set(
    s: &[u8],
    m: SetRequest,
    attributes: [apdu::Row; 32],
    eid: u64,
    credentials: &[u8],
    d: Directory,
) -> Result<(), Status>
    requires { SetFits m × (length (list_of d) ≤ 32) }
    ensures { status_of result ≡ set_status (tag_of eid credentials.now (list_of d) [] []) s.now m attributes }
{
    if m.eid != eid {
        return Err(Status::ArgumentError);
    }
    let exact = are_exact(
        s,
        credentials,
        m.has_credentials,
        m.credentials,
        m.credentials_length,
    );
    check_attributes(attributes, m.count as usize, d, exact)
}

// Writes the value of an attribute to its row.
fn set_row(s: &[u8], a: apdu::Row, d: Directory, writable: &mut [u8])
    requires { length (list_of d) ≤ 32 }
    ensures { writable.new ≡ set_row s.now (list_of d) a writable.old }
{
    let row = look_up(d, u16::from(a.id)).unwrap_or(NO_ROW);
    let done = bits::copy_string(s, a.start as usize, a.n as usize, writable, row.start);
}

// Writes the values of the first `count` attributes in turn.
fn set_rows(s: &[u8], attributes: [apdu::Row; 32], count: usize, d: Directory, writable: &mut [u8])
    requires { (count ≤ 32) × (length (list_of d) ≤ 32) }
    ensures { writable.new ≡ set_rows s.now (list_of d) (take count attributes) writable.old }
{
    for i in 0..count {
        set_row(s, attributes[i], d, writable);
    }
}

// A reply with a status, which is 0 where no fault was found.
fn send_status(
    s: &[u8],
    m: SetRequest,
    checked: Result<(), Status>,
    out: &mut [u8],
) -> RequestAnswer
    ensures { Sends (set_reply s.now m (status_of checked)) out.old result out.new }
{
    let reply = Response {
        fill: 0,
        eid: m.eid,
        has_iid: m.has_iid,
        iid: m.iid,
        has_ret: true,
        ret: match checked {
            Ok(()) => 0,
            Err(status) => u64::from(status),
        },
    };
    send(Message::SetResponse(reply), apdu::no_rows(), s, out)
}

// A SET that is served: all rows are written, or none.
pub(crate) fn set(
    s: &[u8],
    m: SetRequest,
    attributes: [apdu::Row; 32],
    eid: u64,
    credentials: &[u8],
    d: Directory,
    writable: &mut [u8],
    out: &mut [u8],
) -> RequestAnswer
    requires { SetFits m × (length (list_of d) ≤ 32) }
    ensures { effect (told_of result.outcome) writable.new out.new ≡ setting (tag_of eid credentials.now (list_of d) [] writable.old) s.now m attributes out.old }
{
    let checked = check_set(s, m, attributes, eid, credentials, d);
    if checked.is_ok() {
        set_rows(s, attributes, m.count as usize, d, writable);
    }
    if !m.mode {
        return RequestAnswer {
            outcome: RequestOutcome::NoReply,
        };
    }
    send_status(s, m, checked, out)
}
