// Containers up to their attribute rows, and the next row.
ghost use Rattle.std.specs.Prelude.{◌≡◌, ◌%◌, ◌<◌, ◌≤◌, length};
ghost use Rattle.apdu.specs.RowCounters.{total};
ghost use Rattle.apdu_reading.specs.Rows.{Opens, Next};

use crate::component::{id_list, integer, kind, row_count, string};
use crate::cursor::Cursor;
use apdu::{Due, Row, after_row, announces, level};

// A container without its rows: its kind, its length, number or count, and where its octets or ids start.
#[derive(Clone, Copy, Debug, Default, PartialEq, Eq)]
pub struct Head {
    pub kind: u64,
    pub n: u64,
    pub start: usize,
    pub cursor: Cursor,
}

pub(crate) fn container(s: &[u8], depth: usize, c: Cursor) -> Head
    requires { (length s.now ≤ 512) × (depth ≤ 5) }
    ensures { Opens s.now depth c result }
{
    let k = kind(s, depth, c);
    if k.fault != 0 {
        return Head {
            kind: 0,
            n: 0,
            start: 0,
            cursor: k,
        };
    }
    // Returns of their own, for speed: by a `match` whose arms share the building of the head, an id list is read a quarter slower.
    if k.value == apdu::OCTET_STRING {
        let d = string(s, k);
        return Head {
            kind: apdu::OCTET_STRING,
            n: d.value,
            start: d.start,
            cursor: d,
        };
    }
    if k.value == apdu::DSRC_EID {
        let d = integer(s, k);
        return Head {
            kind: apdu::DSRC_EID,
            n: d.value,
            start: 0,
            cursor: d,
        };
    }
    if k.value == apdu::ATTRIBUTE_ID_LIST {
        let d = id_list(s, k);
        return Head {
            kind: apdu::ATTRIBUTE_ID_LIST,
            n: d.value,
            start: d.start,
            cursor: d,
        };
    }
    let d = row_count(s, depth + 1, k);
    Head {
        kind: apdu::ATTRIBUTE_LIST,
        n: d.value,
        start: 0,
        cursor: d,
    }
}

// A place in a message as rows and entries hold it: behind a fault, where a place may be any, what is too large of it is cut off.
pub(crate) fn place(start: usize) -> u32
    ensures { result ≡ start % 4294967296 }
{
    (start % 4294967296) as u32
}

#[derive(Clone, Copy, Debug, PartialEq, Eq)]
pub struct RowRead {
    pub cursor: Cursor,
    pub due: Due,
    pub row: Row,
}

// The next row.
pub(crate) fn next_row(s: &[u8], c: Cursor, o: Due) -> RowRead
    requires { (length s.now ≤ 512) × (0 < total o) }
    ensures { Next s.now c o result }
{
    let d = integer(s, c);
    let h = container(s, level(o), d);
    RowRead {
        cursor: h.cursor,
        due: after_row(o, announces(h.kind, h.n)),
        row: Row {
            id: d.value as u8,
            kind: h.kind as u8,
            n: h.n as u16,
            start: place(h.start),
        },
    }
}
