// The messages of the T-Kernel's services, behind their choice and up to their rows: the leading bits, then the components in Annex A's order.
ghost use Rattle.std.specs.Prelude.{◌≡◌, ◌%◌, ◌<◌, ◌≤◌, length};
ghost use Rattle.bits.specs.Bits.{field};
ghost use Rattle.apdu.specs.Values.{bit_of};
ghost use Rattle.apdu_reading.specs.Answers.{Chosen};
ghost use Rattle.apdu_reading.specs.Messages.{Opens};

use crate::component::integer;
use crate::cursor::{Cursor, piece};
use crate::optional::{attributes_if, container_if, id_list_if, integer_if, string_if};
use apdu::{
    ActionResponse, GetRequest, GetResponse, Message, Request, Response, SetRequest, announces,
};

// The bit at a place.
pub(crate) fn flag(s: &[u8], at: usize) -> bool
    ensures { bit_of result ≡ field s.now at 1 }
{
    bits::read_field(s, at, 1) == 1
}

// A message up to its rows: how many are due at depth 1 and 2, whether a number follows them, and the message with its rows and that number 0.
#[derive(Clone, Copy, Debug, PartialEq, Eq)]
pub struct Opened {
    pub cursor: Cursor,
    pub d1: u64,
    pub d2: u64,
    pub last: bool,
    pub message: Message,
}

// An action or event request.
pub(crate) fn request(s: &[u8], c: Cursor) -> Opened
    requires { (length s.now ≤ 512) × Chosen s.now c × (c.value % 2 ≡ 0) × (c.value ≤ 2) }
    ensures { Opens s.now result }
{
    let lead = piece(s, 4, false, c);
    let has_credentials = flag(s, 4);
    let has_parameter = flag(s, 5);
    let has_iid = flag(s, 6);
    let mode = flag(s, 7);
    let eid = integer(s, lead);
    let service = integer(s, eid);
    let credentials = string_if(s, has_credentials, service);
    let h = container_if(s, has_parameter, credentials);
    let d2 = announces(h.kind, h.n);
    let cursor = h.cursor;
    let message = Request {
        mode,
        eid: eid.value,
        service: service.value,
        has_credentials,
        credentials: credentials.start,
        credentials_length: credentials.value,
        has_parameter,
        kind: h.kind,
        n: h.n,
        start: h.start,
        rows: 0,
        has_iid,
        iid: 0,
    };
    // A return for each kind, for speed: with the message joined, a short request is read a quarter slower.
    if c.value == 2 {
        return Opened {
            cursor,
            d1: 0,
            d2,
            last: has_iid,
            message: Message::EventRequest(message),
        };
    }
    Opened {
        cursor,
        d1: 0,
        d2,
        last: has_iid,
        message: Message::ActionRequest(message),
    }
}

pub(crate) fn action_response(s: &[u8], c: Cursor) -> Opened
    requires { (length s.now ≤ 512) × Chosen s.now c × (c.value ≡ 1) }
    ensures { Opens s.now result }
{
    let lead = piece(s, 4, false, c);
    let has_iid = flag(s, 4);
    let has_parameter = flag(s, 5);
    let has_ret = flag(s, 6);
    let fill = bits::read_field(s, 7, 1);
    let eid = integer(s, lead);
    let iid = integer_if(s, has_iid, eid);
    let h = container_if(s, has_parameter, iid);
    let d2 = announces(h.kind, h.n);
    let cursor = h.cursor;
    let message = ActionResponse {
        fill,
        eid: eid.value,
        has_iid,
        iid: iid.value,
        has_parameter,
        kind: h.kind,
        n: h.n,
        start: h.start,
        rows: 0,
        has_ret,
        ret: 0,
    };
    Opened {
        cursor,
        d1: 0,
        d2,
        last: has_ret,
        message: Message::ActionResponse(message),
    }
}

// An event or set response.
pub(crate) fn response(s: &[u8], c: Cursor) -> Opened
    requires { (length s.now ≤ 512) × Chosen s.now c × (c.value % 2 ≡ 1) × (3 ≤ c.value) × (c.value ≤ 5) }
    ensures { Opens s.now result }
{
    let lead = piece(s, 4, false, c);
    let has_iid = flag(s, 4);
    let has_ret = flag(s, 5);
    let fill = bits::read_field(s, 6, 2);
    let eid = integer(s, lead);
    let iid = integer_if(s, has_iid, eid);
    let ret = integer_if(s, has_ret, iid);
    let message = Response {
        fill,
        eid: eid.value,
        has_iid,
        iid: iid.value,
        has_ret,
        ret: ret.value,
    };
    Opened {
        cursor: ret,
        d1: 0,
        d2: 0,
        last: false,
        message: if c.value == 5 {
            Message::SetResponse(message)
        } else {
            Message::EventResponse(message)
        },
    }
}

pub(crate) fn set_request(s: &[u8], c: Cursor) -> Opened
    requires { (length s.now ≤ 512) × Chosen s.now c × (c.value ≡ 4) }
    ensures { Opens s.now result }
{
    let lead = piece(s, 4, false, c);
    let has_credentials = flag(s, 4);
    let has_iid = flag(s, 5);
    let fill = bits::read_field(s, 6, 1);
    let mode = flag(s, 7);
    let eid = integer(s, lead);
    let credentials = string_if(s, has_credentials, eid);
    let cursor = attributes_if(s, true, credentials);
    let message = SetRequest {
        fill,
        mode,
        eid: eid.value,
        has_credentials,
        credentials: credentials.start,
        credentials_length: credentials.value,
        count: cursor.value,
        rows: 0,
        has_iid,
        iid: 0,
    };
    Opened {
        cursor,
        d1: cursor.value,
        d2: 0,
        last: has_iid,
        message: Message::SetRequest(message),
    }
}

pub(crate) fn get_request(s: &[u8], c: Cursor) -> Opened
    requires { (length s.now ≤ 512) × Chosen s.now c × (c.value ≡ 6) }
    ensures { Opens s.now result }
{
    let lead = piece(s, 4, false, c);
    let has_credentials = flag(s, 4);
    let has_iid = flag(s, 5);
    let has_ids = flag(s, 6);
    let fill = bits::read_field(s, 7, 1);
    let eid = integer(s, lead);
    let credentials = string_if(s, has_credentials, eid);
    let iid = integer_if(s, has_iid, credentials);
    let ids = id_list_if(s, has_ids, iid);
    let message = GetRequest {
        fill,
        eid: eid.value,
        has_credentials,
        credentials: credentials.start,
        credentials_length: credentials.value,
        has_iid,
        iid: iid.value,
        has_ids,
        ids: ids.start,
        count: ids.value,
    };
    Opened {
        cursor: ids,
        d1: 0,
        d2: 0,
        last: false,
        message: Message::GetRequest(message),
    }
}

pub(crate) fn get_response(s: &[u8], c: Cursor) -> Opened
    requires { (length s.now ≤ 512) × Chosen s.now c × (c.value ≡ 7) }
    ensures { Opens s.now result }
{
    let lead = piece(s, 4, false, c);
    let has_iid = flag(s, 4);
    let has_attributes = flag(s, 5);
    let has_ret = flag(s, 6);
    let fill = bits::read_field(s, 7, 1);
    let eid = integer(s, lead);
    let iid = integer_if(s, has_iid, eid);
    let cursor = attributes_if(s, has_attributes, iid);
    let message = GetResponse {
        fill,
        eid: eid.value,
        has_iid,
        iid: iid.value,
        has_attributes,
        count: cursor.value,
        rows: 0,
        has_ret,
        ret: 0,
    };
    Opened {
        cursor,
        d1: cursor.value,
        d2: 0,
        last: has_ret,
        message: Message::GetResponse(message),
    }
}

// A service's message up to its rows.
pub(crate) fn opening(s: &[u8], c: Cursor) -> Opened
    requires { (length s.now ≤ 512) × Chosen s.now c × (c.value < 8) }
    ensures { Opens s.now result }
{
    match c.value {
        0 | 2 => request(s, c),
        1 => action_response(s, c),
        4 => set_request(s, c),
        6 => get_request(s, c),
        7 => get_response(s, c),
        _ => response(s, c),
    }
}
