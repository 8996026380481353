// The messages behind their choice, one function for each kind of record. The tests of a leading part are joined by `&`: one value, which the proofs compare
// with the part's fields at once.
ghost use Rattle.std.specs.Prelude.{true, length};
ghost use Rattle.apdu.specs.Values.{response_values, request_values, action_response_values, set_request_values, get_request_values, get_response_values};
ghost use Rattle.apdu.specs.Sound.{request_sound, action_response_sound, set_request_sound, get_request_sound, get_response_sound};
ghost use Rattle.apdu_same.specs.Walk.{Compares};

use crate::fields::{number_if, part_if};
use crate::rows::{attributes_if, boxed_if};
use apdu::{ActionResponse, GetRequest, GetResponse, Request, Response, Row, SetRequest};

// Event or set responses.
pub(crate) fn response(a: Response, b: Response) -> bool
    ensures { Compares true true (response_values a) (response_values b) result }
{
    let lead = (a.has_iid == b.has_iid) & ((a.has_ret == b.has_ret) & (a.fill == b.fill));
    if !lead {
        return false;
    }
    let eid = a.eid == b.eid;
    let iid = number_if(eid, a.has_iid, a.iid, b.iid);
    number_if(iid, a.has_ret, a.ret, b.ret)
}

// Action or event requests.
pub(crate) fn request(
    s: &[u8],
    a: Request,
    table: [Row; 32],
    t: &[u8],
    b: Request,
    other: [Row; 32],
) -> bool
    ensures { Compares (request_sound (length s.now) a table) (request_sound (length t.now) b other) (request_values s.now a table) (request_values t.now b other) result }
{
    let lead = (a.has_credentials == b.has_credentials)
        & ((a.has_parameter == b.has_parameter) & ((a.has_iid == b.has_iid) & (a.mode == b.mode)));
    if !lead {
        return false;
    }
    let eid = a.eid == b.eid;
    let service = eid & (a.service == b.service);
    let credentials = part_if(
        service,
        a.has_credentials,
        s,
        a.credentials,
        a.credentials_length,
        t,
        b.credentials,
        b.credentials_length,
    );
    let parameter = boxed_if(
        credentials,
        a.has_parameter,
        s,
        a.kind,
        a.n,
        a.start,
        table,
        a.rows,
        t,
        b.kind,
        b.n,
        b.start,
        other,
        b.rows,
    );
    number_if(parameter, a.has_iid, a.iid, b.iid)
}

pub(crate) fn action_response(
    s: &[u8],
    a: ActionResponse,
    table: [Row; 32],
    t: &[u8],
    b: ActionResponse,
    other: [Row; 32],
) -> bool
    ensures { Compares (action_response_sound (length s.now) a table) (action_response_sound (length t.now) b other) (action_response_values s.now a table) (action_response_values t.now b other) result }
{
    let lead = (a.has_iid == b.has_iid)
        & ((a.has_parameter == b.has_parameter) & ((a.has_ret == b.has_ret) & (a.fill == b.fill)));
    if !lead {
        return false;
    }
    let eid = a.eid == b.eid;
    let iid = number_if(eid, a.has_iid, a.iid, b.iid);
    let parameter = boxed_if(
        iid,
        a.has_parameter,
        s,
        a.kind,
        a.n,
        a.start,
        table,
        a.rows,
        t,
        b.kind,
        b.n,
        b.start,
        other,
        b.rows,
    );
    number_if(parameter, a.has_ret, a.ret, b.ret)
}

pub(crate) fn set_request(
    s: &[u8],
    a: SetRequest,
    table: [Row; 32],
    t: &[u8],
    b: SetRequest,
    other: [Row; 32],
) -> bool
    ensures { Compares (set_request_sound (length s.now) a table) (set_request_sound (length t.now) b other) (set_request_values s.now a table) (set_request_values t.now b other) result }
{
    let lead = (a.has_credentials == b.has_credentials)
        & ((a.has_iid == b.has_iid) & ((a.fill == b.fill) & (a.mode == b.mode)));
    if !lead {
        return false;
    }
    let eid = a.eid == b.eid;
    let credentials = part_if(
        eid,
        a.has_credentials,
        s,
        a.credentials,
        a.credentials_length,
        t,
        b.credentials,
        b.credentials_length,
    );
    let list = attributes_if(
        credentials,
        true,
        s,
        a.count,
        table,
        a.rows,
        t,
        b.count,
        other,
        b.rows,
    );
    number_if(list, a.has_iid, a.iid, b.iid)
}

pub(crate) fn get_request(s: &[u8], a: GetRequest, t: &[u8], b: GetRequest) -> bool
    ensures { Compares (get_request_sound (length s.now) a) (get_request_sound (length t.now) b) (get_request_values s.now a) (get_request_values t.now b) result }
{
    let lead = (a.has_credentials == b.has_credentials)
        & ((a.has_iid == b.has_iid) & ((a.has_ids == b.has_ids) & (a.fill == b.fill)));
    if !lead {
        return false;
    }
    let eid = a.eid == b.eid;
    let credentials = part_if(
        eid,
        a.has_credentials,
        s,
        a.credentials,
        a.credentials_length,
        t,
        b.credentials,
        b.credentials_length,
    );
    let iid = number_if(credentials, a.has_iid, a.iid, b.iid);
    part_if(iid, a.has_ids, s, a.ids, a.count, t, b.ids, b.count)
}

pub(crate) fn get_response(
    s: &[u8],
    a: GetResponse,
    table: [Row; 32],
    t: &[u8],
    b: GetResponse,
    other: [Row; 32],
) -> bool
    ensures { Compares (get_response_sound (length s.now) a table) (get_response_sound (length t.now) b other) (get_response_values s.now a table) (get_response_values t.now b other) result }
{
    let lead = (a.has_iid == b.has_iid)
        & ((a.has_attributes == b.has_attributes)
            & ((a.has_ret == b.has_ret) & (a.fill == b.fill)));
    if !lead {
        return false;
    }
    let eid = a.eid == b.eid;
    let iid = number_if(eid, a.has_iid, a.iid, b.iid);
    let list = attributes_if(
        iid,
        a.has_attributes,
        s,
        a.count,
        table,
        a.rows,
        t,
        b.count,
        other,
        b.rows,
    );
    number_if(list, a.has_ret, a.ret, b.ret)
}
