// Attribute rows, as many as are due, stored in the order of the message.
ghost use Rattle.std.specs.Prelude.{◌≡◌, ◌-◌, ◌≤◌, length, eqb, ltb, false};
ghost use Rattle.refusals.specs.Check.{pick};
ghost use Rattle.apdu_reading.specs.Lists.{Ready, Filled};

use crate::container::next_row;
use crate::cursor::Cursor;
use apdu::{Due, Row};

// The rows read so far: the first `used`; the others are empty.
#[derive(Clone, Copy, Debug, PartialEq, Eq)]
pub struct Rows {
    pub cursor: Cursor,
    pub used: u64,
    pub rows: [Row; 32],
}

// Whether another row is to be read: all that were announced and are not read.
pub(crate) fn wants(c: Cursor, used: u64) -> bool
    ensures { result ≡ pick (eqb c.fault 0) (ltb used (32 - c.room)) false }
{
    c.fault == 0 && used < apdu::MOST_ROWS.saturating_sub(c.room)
}

// All rows that are due, behind those that are read.
pub(crate) fn fill(s: &[u8], o: Due, r: Rows) -> Rows
    requires { (length s.now ≤ 512) × Ready o r }
    ensures { Filled s.now o r result }
{
    let mut cursor = r.cursor;
    let mut due = o;
    let mut used = r.used;
    let mut rows = r.rows;
    // A `while`: how many rows there are is known only as they are read.
    while wants(cursor, used) {
        let t = next_row(s, cursor, due);
        cursor = t.cursor;
        due = t.due;
        if cursor.fault == 0 {
            rows[used as usize] = t.row;
            used += 1;
        }
    }
    Rows { cursor, used, rows }
}
