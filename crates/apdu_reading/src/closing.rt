// A service's message once its rows are read: how many they are, and the number behind them.
ghost use Rattle.std.specs.Prelude.{◌≡◌};
ghost use Rattle.apdu_reading.specs.Messages.{closed_by};

use apdu::{ActionResponse, GetResponse, Message, Request, SetRequest};

// The message with its number of rows and the number behind them; a message that has none stays as it is.
pub(crate) fn closed(m: Message, rows: usize, last: u64) -> Message
    ensures { result ≡ closed_by m rows last }
{
    match m {
        Message::ActionRequest(x) => Message::ActionRequest(Request {
            rows,
            iid: last,
            ..x
        }),
        Message::ActionResponse(x) => Message::ActionResponse(ActionResponse {
            rows,
            ret: last,
            ..x
        }),
        Message::EventRequest(x) => Message::EventRequest(Request {
            rows,
            iid: last,
            ..x
        }),
        Message::SetRequest(x) => Message::SetRequest(SetRequest {
            rows,
            iid: last,
            ..x
        }),
        Message::GetResponse(x) => Message::GetResponse(GetResponse {
            rows,
            ret: last,
            ..x
        }),
        _ => m,
    }
}
