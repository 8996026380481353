// A message of any kind.
ghost use Rattle.std.specs.Prelude.{◌≤◌, length};
ghost use Rattle.apdu_text.specs.MessageText.{message_text};
ghost use Rattle.apdu_text.specs.Ink.{Writes};

use crate::pen::Pen;
use apdu::{Entry, Message, Row};

impl Pen<'_> {
    // The kind of a message and its fields.
    pub(crate) fn message(&mut self, s: &[u8], m: Message, entries: &[Entry], rows: &[Row])
        requires { length rows.now ≤ 32 }
        ensures { Writes (message_text s.now m entries.now rows.now) self.old self.new }
    {
        match m {
            Message::ActionRequest(x) => {
                self.word(b"action-request");
                self.request(s, x, rows);
            }
            Message::ActionResponse(x) => {
                self.word(b"action-response");
                self.action_response(s, x, rows);
            }
            Message::EventRequest(x) => {
                self.word(b"event-request");
                self.request(s, x, rows);
            }
            Message::EventResponse(x) => {
                self.word(b"event-response");
                self.response(x);
            }
            Message::SetRequest(x) => {
                self.word(b"set-request");
                self.set_request(s, x, rows);
            }
            Message::SetResponse(x) => {
                self.word(b"set-response");
                self.response(x);
            }
            Message::GetRequest(x) => {
                self.word(b"get-request");
                self.get_request(s, x);
            }
            Message::GetResponse(x) => {
                self.word(b"get-response");
                self.get_response(s, x, rows);
            }
            Message::Bst(x) => {
                self.word(b"bst");
                self.bst(s, x, entries, rows);
            }
            Message::Vst(x) => {
                self.word(b"vst");
                self.vst(s, x, entries, rows);
            }
        }
    }
}
