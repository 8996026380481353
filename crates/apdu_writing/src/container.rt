// Containers up to their attribute rows, and the next row.
ghost use Rattle.std.specs.Prelude.{◌<◌, ◌≤◌};
ghost use Rattle.apdu.specs.RowCounters.{total};
ghost use Rattle.apdu_writing.specs.Rows.{Opens, Next, Deep};

use crate::component::{number, string};
use crate::counted::{ids, kind, row_count};
use crate::quill::Quill;
use apdu::{Due, Row, after_row, announces, level};

// A container of kind k at the given depth, without its rows.
pub(crate) fn head(
    lent: &[u8],
    depth: usize,
    k: u64,
    n: u64,
    start: usize,
    out: &mut [u8],
    c: Quill,
) -> Quill
    requires { depth ≤ 5 }
    ensures { Opens lent.now depth k n start c result out.old out.new × Deep depth result }
{
    let d = kind(depth, k, out, c);
    match k {
        apdu::OCTET_STRING => string(lent, start, n, out, d),
        apdu::DSRC_EID => number(n, out, d),
        apdu::ATTRIBUTE_ID_LIST => ids(lent, start, n, out, d),
        _ => row_count(depth + 1, n, out, d),
    }
}

#[derive(Clone, Copy, Debug, PartialEq, Eq)]
pub struct RowPut {
    pub quill: Quill,
    pub due: Due,
}

// The next row.
pub(crate) fn next_row(lent: &[u8], w: Row, u: Due, out: &mut [u8], c: Quill) -> RowPut
    requires { 0 < total u }
    ensures { Next lent.now w u c result out.old out.new }
{
    let d = number(w.id as u64, out, c);
    let k = w.kind as u64;
    let n = w.n as u64;
    let quill = head(lent, level(u), k, n, w.start as usize, out, d);
    let due = after_row(u, announces(k, n));
    RowPut { quill, due }
}
