// Messages of any kind.
ghost use Rattle.std.specs.Prelude.{length};
ghost use Rattle.apdu.specs.Values.{values_of};
ghost use Rattle.apdu.specs.Sound.{sound};
ghost use Rattle.apdu_same.specs.Walk.{Compares};

use crate::kinds::{action_response, get_request, get_response, request, response, set_request};
use crate::link::{bst, vst};
use apdu::{Entry, Message, Row};

// Whether two messages agree, of which each keeps the condition of 23.
pub(crate) fn agree(
    s: &[u8],
    a: Message,
    list: [Entry; 32],
    table: [Row; 32],
    t: &[u8],
    b: Message,
    other: [Entry; 32],
    others: [Row; 32],
) -> bool
    ensures { Compares (sound (length s.now) a list table) (sound (length t.now) b other others) (values_of s.now a list table) (values_of t.now b other others) result }
{
    match (a, b) {
        (Message::ActionRequest(x), Message::ActionRequest(y)) => {
            request(s, x, table, t, y, others)
        }
        (Message::ActionResponse(x), Message::ActionResponse(y)) => {
            action_response(s, x, table, t, y, others)
        }
        (Message::EventRequest(x), Message::EventRequest(y)) => {
            request(s, x, table, t, y, others)
        }
        (Message::EventResponse(x), Message::EventResponse(y)) => response(x, y),
        (Message::SetRequest(x), Message::SetRequest(y)) => {
            set_request(s, x, table, t, y, others)
        }
        (Message::SetResponse(x), Message::SetResponse(y)) => response(x, y),
        (Message::GetRequest(x), Message::GetRequest(y)) => get_request(s, x, t, y),
        (Message::GetResponse(x), Message::GetResponse(y)) => {
            get_response(s, x, table, t, y, others)
        }
        (Message::Bst(x), Message::Bst(y)) => bst(s, x, list, table, t, y, other, others),
        (Message::Vst(x), Message::Vst(y)) => vst(s, x, list, table, t, y, other, others),
        _ => false,
    }
}
