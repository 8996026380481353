// Calls: each line of them is one call of the tag.
use crate::LINE_OCTETS;
use crate::numbers::{decimal, lid, narrow, read_octets};
use crate::own::Tag;
use crate::words::{front, has_form, word};
use apdu::Message;
use attributes::RequestOutcome;
use refusals::Refusal;

// The refusal of a line that is not of the script's forms.
pub(crate) const NOT_A_LINE: u8 = 0;

// Octets of the line stand at the front of the lent buffer, and are counted here.
#[derive(Clone, Copy, Debug, PartialEq, Eq)]
pub enum Call {
    Bst { tick: u32, lid: u32, octets: usize },
    Release(u32),
    Tick(u32),
    Request(usize),
    Lookup(u8),
    Show,
}

// What a call is answered with.
#[derive(Clone, Copy, Debug, PartialEq, Eq)]
pub enum Answer {
    Silent,
    // So many octets of the output.
    Vst(usize),
    Done,
    Reply(usize),
    NoReply,
    // The id that was looked up.
    Known(u8),
    Unknown,
    Writable,
    Refused(u8),
    // A refusal and its position.
    RefusedAt(u8, usize),
}

// ---- the lines

// The call of a line; its octets stand at the front of `octets`.
// A chain and no `match`: each form has its own number of words.
pub(crate) fn read_call(line: &[u8], octets: &mut [u8]) -> Option<Call> {
    if has_form(line, b"bst", 4) {
        Some(Call::Bst {
            tick: decimal(word(line, 1))?,
            lid: lid(word(line, 2))?,
            octets: read_octets(word(line, 3), octets)?,
        })
    } else if has_form(line, b"release", 2) {
        Some(Call::Release(lid(word(line, 1))?))
    } else if has_form(line, b"tick", 2) {
        Some(Call::Tick(decimal(word(line, 1))?))
    } else if has_form(line, b"request", 2) {
        Some(Call::Request(read_octets(word(line, 1), octets)?))
    } else if has_form(line, b"lookup", 2) {
        Some(Call::Lookup(narrow(decimal(word(line, 1))?)))
    } else if has_form(line, b"show", 1) {
        Some(Call::Show)
    } else {
        None
    }
}

// ---- what they answer

fn refused(refusal: Refusal) -> Answer {
    Answer::Refused(u8::from(refusal))
}

// What a release or tick call is answered with.
fn linked(res: Result<(), Refusal>) -> Answer {
    match res {
        Ok(()) => Answer::Done,
        Err(refusal) => refused(refusal),
    }
}

impl Tag {
    // A BST from its octets: what reading refuses goes before the call's own checks, and another message is no BST line.
    fn hear(&mut self, tick: u32, lid: u32, lent: &[u8], output: &mut [u8]) -> Answer {
        let reading = apdu_reading::read(lent);
        match reading.answer {
            apdu_reading::Answer::Refused(number, position) => Answer::RefusedAt(number, position),
            apdu_reading::Answer::Message(Message::Bst(bst)) => {
                let result = initialisation::hear_bst(
                    &mut self.link,
                    bst,
                    reading.lists,
                    lent,
                    tick,
                    lid,
                    self.elements,
                    &self.marks,
                    self.configuration,
                    output,
                );
                match result {
                    Ok(Some(n)) => Answer::Vst(n),
                    Ok(None) => Answer::Silent,
                    Err(refusal) => refused(refusal),
                }
            }
            apdu_reading::Answer::Message(_) => Answer::Refused(NOT_A_LINE),
        }
    }

    // The request of these octets, over the octets of the tag's areas that are in use.
    fn request(&mut self, octets: &[u8], output: &mut [u8]) -> Answer {
        let used = self.writable.used.min(LINE_OCTETS);
        let writable = &mut self.writable.octets[..];
        let answer = attribute_promises::request_among(
            octets,
            u64::from(self.eid),
            self.credentials.in_use(),
            self.directory.rows,
            self.directory.count,
            self.factory.in_use(),
            &mut writable[..used],
            output,
        );
        match answer.outcome {
            RequestOutcome::Refused(number) => Answer::Refused(number),
            RequestOutcome::RefusedAt(number, position) => Answer::RefusedAt(number, position),
            RequestOutcome::NoReply => Answer::NoReply,
            RequestOutcome::Reply(n) => Answer::Reply(n),
        }
    }

    // Whether the directory has the id; the part itself is looked up where it is printed.
    fn look_up(&self, id: u8) -> Answer {
        let Tag {
            directory,
            factory,
            writable,
            ..
        } = self;
        let known = directory::knows_among(
            directory.rows,
            directory.count,
            factory.used,
            writable.used,
            id,
        );
        match known {
            Ok(true) => Answer::Known(id),
            Ok(false) => Answer::Unknown,
            Err(refusal) => refused(refusal),
        }
    }

    // Takes a call, whose octets stand at the front of `octets`.
    pub(crate) fn take_call(&mut self, call: Call, octets: &[u8], output: &mut [u8]) -> Answer {
        match call {
            Call::Bst {
                tick,
                lid,
                octets: n,
            } => self.hear(tick, lid, front(octets, n), output),
            Call::Release(lid) => linked(initialisation::release(&mut self.link, lid)),
            Call::Tick(tick) => linked(initialisation::tick(&mut self.link, tick)),
            Call::Request(n) => self.request(front(octets, n), output),
            Call::Lookup(id) => self.look_up(id),
            Call::Show => Answer::Writable,
        }
    }
}
