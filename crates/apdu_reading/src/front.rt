// What reading answers, the choice that a message begins with, and what is left behind it.
ghost use Rattle.std.specs.Prelude.{◌≡◌, ◌≤◌, length};
ghost use Rattle.apdu_format.specs.Component.{choice};
ghost use Rattle.apdu_reading.specs.Cursor.{component};
ghost use Rattle.apdu_reading.specs.Answers.{no_lists, refusal, first, ended_by, answer_of, place_of};

use crate::component::choice;
use crate::cursor::{Cursor, faulty};
use apdu::{Lists, Message, no_entries, no_rows};

#[derive(Clone, Copy, Debug, PartialEq, Eq)]
pub enum Answer {
    Message(Message),
    // A refusal's number and position.
    Refused(u8, usize),
}

// What was read: the answer, the place behind the message, and the entries and rows that stand beside it.
#[derive(Clone, Copy, Debug, PartialEq, Eq)]
pub struct Reading {
    pub answer: Answer,
    pub end: usize,
    pub lists: Lists,
}

// Lists with nothing in them.
pub(crate) fn cleared() -> Lists
    ensures { result ≡ no_lists }
{
    Lists {
        entries: no_entries(),
        rows: no_rows(),
    }
}

pub(crate) fn refused(number: u8, position: usize) -> Reading
    ensures { result ≡ refusal number position }
{
    Reading {
        answer: Answer::Refused(number, position),
        end: 0,
        lists: cleared(),
    }
}

// The choice of the message that `s` is.
pub(crate) fn chosen(s: &[u8]) -> Cursor
    requires { length s.now ≤ 512 }
    ensures { result ≡ component s.now choice first }
{
    choice(
        s,
        Cursor {
            room: apdu::MOST_ROWS,
            ..Cursor::default()
        },
    )
}

// The cursor behind a message, or 14 if octets are left.
pub(crate) fn ended(s: &[u8], c: Cursor) -> Cursor
    requires { length s.now ≤ 512 }
    ensures { result ≡ ended_by s.now c }
{
    if c.fault == 0 && c.at < s.len() * 8 {
        faulty(c, refusals::OCTETS_LEFT, c.at / 8)
    } else {
        c
    }
}

// What is answered where a message ends so: the message, unless there is a fault.
pub(crate) fn answer_of(end: Cursor, m: Message) -> Answer
    ensures { result ≡ answer_of end m }
{
    if end.fault != 0 {
        Answer::Refused(end.fault, end.position)
    } else {
        Answer::Message(m)
    }
}

// The place behind the message, 0 beside a refusal.
pub(crate) fn place_of(end: Cursor) -> usize
    ensures { result ≡ place_of end }
{
    if end.fault != 0 { 0 } else { end.at }
}
