// The messages, one function for each kind of record: the choice and the bits after it are one octet.
ghost use Rattle.std.specs.Prelude.{true, [], ◌∷◌, ◌<◌, length};
ghost use Rattle.apdu_format.specs.Component.{choice};
ghost use Rattle.apdu_format.specs.Reading.{fields};
ghost use Rattle.apdu.specs.Values.{response_values, request_values, action_response_values, set_request_values, get_request_values, get_response_values};
ghost use Rattle.apdu_writing.specs.Quill.{Puts, As};
ghost use Rattle.apdu.specs.Sound.{request_sound, action_response_sound, set_request_sound, get_request_sound, get_response_sound};

use crate::component::{number, number_if, string_if};
use crate::lists::{attributes, attributes_if, boxed_if, ids_if};
use crate::quill::{Quill, put};
use apdu::{ActionResponse, GetRequest, GetResponse, Request, Response, Row, SetRequest};

// Event or set response.
pub(crate) fn response(k: u64, m: Response, out: &mut [u8], c: Quill) -> Quill
    requires { k < 10 }
    ensures { As k 3 (Puts true (choice ∷ []) c result out.old out.new (fields (k ∷ []) ∷ response_values m)) }
{
    let v = 16 * k + 8 * u64::from(m.has_iid) + 4 * u64::from(m.has_ret) + m.fill % 4;
    let d = put(out, 1, v, m.fill < 4, c);
    let e = number(m.eid, out, d);
    let f = number_if(m.has_iid, m.iid, out, e);
    number_if(m.has_ret, m.ret, out, f)
}

// Action or event request.
pub(crate) fn request(
    k: u64,
    lent: &[u8],
    m: Request,
    table: [Row; 32],
    out: &mut [u8],
    c: Quill,
) -> Quill
    requires { k < 10 }
    ensures { As k 0 (Puts (request_sound (length lent.now) m table) (choice ∷ []) c result out.old out.new (fields (k ∷ []) ∷ request_values lent.now m table)) }
{
    let v = 16 * k
        + 8 * u64::from(m.has_credentials)
        + 4 * u64::from(m.has_parameter)
        + 2 * u64::from(m.has_iid)
        + u64::from(m.mode);
    let d = put(out, 1, v, true, c);
    let e = number(m.eid, out, d);
    let f = number(m.service, out, e);
    let g = string_if(
        m.has_credentials,
        lent,
        m.credentials,
        m.credentials_length,
        out,
        f,
    );
    let h = boxed_if(
        m.has_parameter,
        lent,
        table,
        m.rows,
        m.kind,
        m.n,
        m.start,
        out,
        g,
    );
    number_if(m.has_iid, m.iid, out, h)
}

pub(crate) fn action_response(
    lent: &[u8],
    m: ActionResponse,
    table: [Row; 32],
    out: &mut [u8],
    c: Quill,
) -> Quill
    ensures { Puts (action_response_sound (length lent.now) m table) (choice ∷ []) c result out.old out.new (fields (1 ∷ []) ∷ action_response_values lent.now m table) }
{
    let v = 16 * 1
        + 8 * u64::from(m.has_iid)
        + 4 * u64::from(m.has_parameter)
        + 2 * u64::from(m.has_ret)
        + m.fill % 2;
    let d = put(out, 1, v, m.fill < 2, c);
    let e = number(m.eid, out, d);
    let f = number_if(m.has_iid, m.iid, out, e);
    let g = boxed_if(
        m.has_parameter,
        lent,
        table,
        m.rows,
        m.kind,
        m.n,
        m.start,
        out,
        f,
    );
    number_if(m.has_ret, m.ret, out, g)
}

pub(crate) fn set_request(
    lent: &[u8],
    m: SetRequest,
    table: [Row; 32],
    out: &mut [u8],
    c: Quill,
) -> Quill
    ensures { Puts (set_request_sound (length lent.now) m table) (choice ∷ []) c result out.old out.new (fields (4 ∷ []) ∷ set_request_values lent.now m table) }
{
    let v = 16 * 4
        + 8 * u64::from(m.has_credentials)
        + 4 * u64::from(m.has_iid)
        + 2 * (m.fill % 2)
        + u64::from(m.mode);
    let d = put(out, 1, v, m.fill < 2, c);
    let e = number(m.eid, out, d);
    let f = string_if(
        m.has_credentials,
        lent,
        m.credentials,
        m.credentials_length,
        out,
        e,
    );
    let g = attributes(lent, table, m.rows, m.count, out, f);
    number_if(m.has_iid, m.iid, out, g)
}

pub(crate) fn get_request(lent: &[u8], m: GetRequest, out: &mut [u8], c: Quill) -> Quill
    ensures { Puts (get_request_sound (length lent.now) m) (choice ∷ []) c result out.old out.new (fields (6 ∷ []) ∷ get_request_values lent.now m) }
{
    let v = 16 * 6
        + 8 * u64::from(m.has_credentials)
        + 4 * u64::from(m.has_iid)
        + 2 * u64::from(m.has_ids)
        + m.fill % 2;
    let d = put(out, 1, v, m.fill < 2, c);
    let e = number(m.eid, out, d);
    let f = string_if(
        m.has_credentials,
        lent,
        m.credentials,
        m.credentials_length,
        out,
        e,
    );
    let g = number_if(m.has_iid, m.iid, out, f);
    ids_if(m.has_ids, lent, m.ids, m.count, out, g)
}

pub(crate) fn get_response(
    lent: &[u8],
    m: GetResponse,
    table: [Row; 32],
    out: &mut [u8],
    c: Quill,
) -> Quill
    ensures { Puts (get_response_sound (length lent.now) m table) (choice ∷ []) c result out.old out.new (fields (7 ∷ []) ∷ get_response_values lent.now m table) }
{
    let v = 16 * 7
        + 8 * u64::from(m.has_iid)
        + 4 * u64::from(m.has_attributes)
        + 2 * u64::from(m.has_ret)
        + m.fill % 2;
    let d = put(out, 1, v, m.fill < 2, c);
    let e = number(m.eid, out, d);
    let f = number_if(m.has_iid, m.iid, out, e);
    let g = attributes_if(m.has_attributes, lent, table, m.rows, m.count, out, f);
    number_if(m.has_ret, m.ret, out, g)
}
