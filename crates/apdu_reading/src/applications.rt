// Application lists: entries, each with the rows of its parameter.
ghost use Rattle.std.specs.Prelude.{◌≡◌, ◌≤◌, length};
ghost use Rattle.apdu_reading.specs.Applications.{EntryOpens, Open, EntryWhole, CountMaybe};
ghost use Rattle.apdu_reading.specs.Messages.{FrontRead};
ghost use Rattle.apdu_reading.specs.Answers.{Reads};

use crate::component::{count, entry_octet};
use crate::container::place;
use crate::cursor::{Cursor, marked};
use crate::front::{Reading, answer_of, cleared, ended, place_of};
use crate::link::{LinkFront, link_end};
use crate::optional::{container_if, integer_if};
use crate::rows::{Rows, fill};
use apdu::{Due, Entry, Lists, announces, no_entries, no_rows};

// An entry up to its rows, of which `due` are announced.
#[derive(Clone, Copy, Debug, PartialEq, Eq)]
pub struct EntryHead {
    pub cursor: Cursor,
    pub entry: Entry,
    pub due: u64,
}

pub(crate) fn entry_head(s: &[u8], c: Cursor) -> EntryHead
    requires { length s.now ≤ 512 }
    ensures { EntryOpens s.now c result }
{
    let octet = entry_octet(s, c);
    let has_eid = octet.value / 128 == 1;
    let has_parameter = octet.value / 64 % 2 == 1;
    let eid = integer_if(s, has_eid, octet);
    let h = container_if(s, has_parameter, eid);
    let entry = Entry {
        has_eid,
        has_parameter,
        aid: (octet.value % 32) as u8,
        eid: eid.value as u8,
        kind: h.kind as u8,
        n: h.n as u16,
        start: place(h.start),
        rows: 0,
    };
    EntryHead {
        cursor: h.cursor,
        entry,
        due: announces(h.kind, h.n),
    }
}

#[derive(Clone, Copy, Debug, PartialEq, Eq)]
pub struct EntryRead {
    pub entry: Entry,
    pub rows: Rows,
}

// An entry with the rows that it announces, stored behind those that are read.
pub(crate) fn with_rows(s: &[u8], h: EntryHead, r: Rows) -> EntryRead
    requires { (length s.now ≤ 512) × Open r × EntryOpens s.now r.cursor h × (1 ≤ h.due) }
    ensures { EntryWhole s.now r result }
{
    let due = Due {
        d2: h.due,
        ..Due::default()
    };
    let rows = fill(
        s,
        due,
        Rows {
            cursor: h.cursor,
            ..r
        },
    );
    let entry = Entry {
        rows: (rows.used - r.used) as u8,
        ..h.entry
    };
    EntryRead { entry, rows }
}

// The count of an application list, which is the value afterwards.
pub(crate) fn count_if(s: &[u8], p: bool, c: Cursor) -> Cursor
    requires { length s.now ≤ 512 }
    ensures { CountMaybe s.now p c result }
{
    if p { count(s, c) } else { marked(c, 0, 0) }
}

// A message from its application lists on: a list, and behind it a second one if it is there. In a round `others` counts the list that is read, `mandatory`
// the entries before it, which are 0 for the first. One loop reads the entries of both, so that what it calls once becomes part of it. The lists are locals
// up to the one return, and a refusal clears them in place, so that they are not copied again.
pub(crate) fn application_lists(s: &[u8], f: LinkFront) -> Reading
    requires { (length s.now ≤ 512) × FrontRead s.now f }
    ensures { Reads s.now result }
{
    let mut cursor = f.cursor;
    let mut used: u64 = 0;
    let entries = no_entries();
    let rows = no_rows();
    let mut lists = Lists { entries, rows };
    let mut mandatory: u64 = 0;
    let mut others: u64 = 0;
    for round in 0..2u64 {
        cursor = count_if(s, round == 0 || f.has_others, cursor);
        mandatory += others;
        others = cursor.value;
        for i in 0..others {
            let h = entry_head(s, cursor);
            let place = (mandatory + i) as usize;
            if h.due == 0 {
                cursor = h.cursor;
                lists.entries[place] = h.entry;
            } else {
                let rows = lists.rows;
                let t = with_rows(s, h, Rows { cursor, used, rows });
                cursor = t.rows.cursor;
                used = t.rows.used;
                lists.rows = t.rows.rows;
                lists.entries[place] = t.entry;
            }
        }
    }
    let e = link_end(s, f, mandatory, others, cursor);
    let end = ended(s, e.cursor);
    if end.fault != 0 {
        lists = cleared();
    }
    Reading {
        answer: answer_of(end, e.message),
        end: place_of(end),
        lists,
    }
}
