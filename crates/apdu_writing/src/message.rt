// A message of any kind.
ghost use Rattle.std.specs.Prelude.{◌&&◌, [], ◌∷◌, length};
ghost use Rattle.apdu_format.specs.Component.{choice};
ghost use Rattle.apdu.specs.Values.{values_of};
ghost use Rattle.apdu_writing.specs.Quill.{Puts};
ghost use Rattle.apdu.specs.Sound.{sound, rows_fit};

use crate::kinds::{action_response, get_request, get_response, request, response, set_request};
use crate::link::link_message;
use crate::quill::Quill;
use crate::rows::within;
use apdu::{Entry, Message, Row};

// Writes a message where it fits.
pub(crate) fn put_message(
    lent: &[u8],
    m: Message,
    list: [Entry; 32],
    table: [Row; 32],
    out: &mut [u8],
    c: Quill,
) -> Quill
    ensures { Puts (sound (length lent.now) m list table && rows_fit m list) (choice ∷ []) c result out.old out.new (values_of lent.now m list table) }
{
    match m {
        Message::ActionRequest(x) => {
            let q = request(0, lent, x, table, out, c);
            within(x.has_parameter, x.rows, q)
        }
        Message::ActionResponse(x) => {
            let q = action_response(lent, x, table, out, c);
            within(x.has_parameter, x.rows, q)
        }
        Message::EventRequest(x) => {
            let q = request(2, lent, x, table, out, c);
            within(x.has_parameter, x.rows, q)
        }
        Message::EventResponse(x) => response(3, x, out, c),
        Message::SetRequest(x) => {
            let q = set_request(lent, x, table, out, c);
            within(true, x.rows, q)
        }
        Message::SetResponse(x) => response(5, x, out, c),
        Message::GetRequest(x) => get_request(lent, x, out, c),
        Message::GetResponse(x) => {
            let q = get_response(lent, x, table, out, c);
            within(x.has_attributes, x.rows, q)
        }
        _ => link_message(lent, m, list, table, out, c),
    }
}
