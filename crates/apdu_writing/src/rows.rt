// Attribute rows, one after the other.
ghost use Rattle.std.specs.Prelude.{◌≡◌, ◌-◌, length, take, drop, eqb};
ghost use Rattle.apdu.specs.Values.{rows_values};
ghost use Rattle.apdu_writing.specs.Quill.{Puts, halted, limited};
ghost use Rattle.apdu.specs.RowCounters.{total, due_list};
ghost use Rattle.apdu.specs.Sound.{rows_sound, count_if};

use crate::container::next_row;
use crate::quill::Quill;
use apdu::{Due, Row, clamped};

// Whether no row is due.
fn finished(u: Due) -> bool
    ensures { result ≡ eqb (total u) 0 }
{
    u.d5 == 0 && u.d4 == 0 && u.d3 == 0 && u.d2 == 0 && u.d1 == 0
}

pub(crate) fn halt(c: Quill) -> Quill
    ensures { result ≡ halted c }
{
    Quill { ok: false, ..c }
}

// The quill behind so many rows, if they are there: it stops where they pass the limit of a message.
pub(crate) fn within(p: bool, rows: usize, c: Quill) -> Quill
    ensures { result ≡ limited (count_if p rows) c }
{
    if p && apdu::MOST_ROWS < rows as u64 {
        return halt(c);
    }
    c
}

// The `count` rows of the table from `first` on, which are those that are due.
pub(crate) fn rows(
    lent: &[u8],
    table: [Row; 32],
    first: usize,
    count: usize,
    due: Due,
    out: &mut [u8],
    c: Quill,
) -> Quill
    ensures { Puts (rows_sound (length lent.now) (total due) (take count (drop first table))) (due_list due) c result out.old out.new (rows_values lent.now (take count (drop first table))) }
{
    let n = clamped(first, count);
    let mut d = c;
    let mut u = due;
    for i in 0..n {
        if finished(u) {
            return halt(d);
        }
        let t = next_row(lent, table[first + i], u, out, d);
        d = t.quill;
        u = t.due;
    }
    if finished(u) { d } else { halt(d) }
}
