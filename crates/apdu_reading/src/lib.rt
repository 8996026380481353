// Reading a message (01, "Messages"): left to right, and the first fault decides. The answer is the record of one of the ten kinds, with its entries and
// rows beside it, or a refusal's number and position.

#![tactic(auto)]

ghost use Rattle.apdu_reading.specs.Answers.{Reads, ReadOnce};

mod applications;
mod closing;
mod component;
mod container;
mod cursor;
mod front;
mod link;
mod optional;
mod rows;
mod services;

use apdu::{Due, Lists, no_entries, no_rows};
use closing::closed;
use container::next_row;
pub use front::{Answer, Reading};
use front::{chosen, ended, refused};
use link::link;
use optional::integer_if;
use rows::wants;
use services::opening;

// The message that `s` is: 21 for more than 512 octets, then the faults of its components, and 14 for octets left behind it. The rows of a service's
// message are held here, where the answer is built, so that they are copied once, and cleared before it is read, so that the copy does not wait for the stores.
// Read twice, the octets give the same record.
pub fn read(s: &[u8]) -> Reading
    ensures answer { Reads s.now result }
    ensures once { ReadOnce }
{
    if apdu::LONGEST_MESSAGE < s.len() {
        return refused(refusals::APDU_TOO_LONG, apdu::LONGEST_MESSAGE);
    }
    let c = chosen(s);
    if c.fault != 0 {
        return refused(c.fault, c.position);
    }
    if 8 <= c.value {
        return link(s, c);
    }
    // Cleared here and not by a function, which would copy them once more.
    let entries = no_entries();
    let rows = no_rows();
    let mut lists = Lists { entries, rows };
    let o = opening(s, c);
    let mut cursor = o.cursor;
    let mut due = Due {
        d1: o.d1,
        d2: o.d2,
        ..Due::default()
    };
    let mut used: u64 = 0;
    // A `while`: how many rows there are is known only as they are read.
    while wants(cursor, used) {
        let t = next_row(s, cursor, due);
        cursor = t.cursor;
        due = t.due;
        if cursor.fault == 0 {
            lists.rows[used as usize] = t.row;
            used += 1;
        }
    }
    let number = integer_if(s, o.last, cursor);
    let end = ended(s, number);
    if end.fault != 0 {
        return refused(end.fault, end.position);
    }
    Reading {
        answer: Answer::Message(closed(o.message, used as usize, number.value)),
        end: end.at,
        lists,
    }
}
