// Application entries with their attribute rows.
ghost use Rattle.std.specs.Prelude.{[], ◌∷◌, ◌+◌, ◌<◌, ◌≤◌, length, take, drop};
ghost use Rattle.apdu_format.specs.Component.{container, entry};
ghost use Rattle.apdu_format.specs.Rules.{when};
ghost use Rattle.apdu.specs.Values.{if, container_values, entry_rows, entry_values};
ghost use Rattle.apdu_writing.specs.Quill.{Puts};
ghost use Rattle.apdu.specs.Sound.{sound_if, container_sound, entry_sound};
ghost use Rattle.apdu_writing.specs.Applications.{Listed};

use crate::component::number_if;
use crate::counted::entry_count;
use crate::lists::boxed;
use crate::quill::{Quill, put};
use apdu::{Entry, Row, entry_rows};

// A parameter, if it is there, with the `count` rows of the table from `first` on.
fn parameter(
    p: bool,
    lent: &[u8],
    table: [Row; 32],
    first: usize,
    count: usize,
    k: u64,
    n: u64,
    start: usize,
    out: &mut [u8],
    c: Quill,
) -> Quill
    ensures { Puts (sound_if p (container_sound (length lent.now) k n start (take count (drop first table)))) (when p (container 1 ∷ [])) c result out.old out.new (if p (container_values lent.now k n start (take count (drop first table)))) }
{
    if p {
        return boxed(lent, table, first, count, k, n, start, out, c);
    }
    c
}

// One entry; its rows start at `first`.
fn application(
    lent: &[u8],
    e: Entry,
    table: [Row; 32],
    first: usize,
    out: &mut [u8],
    c: Quill,
) -> Quill
    ensures { Puts (entry_sound (length lent.now) e (take (entry_rows e) (drop first table))) (entry ∷ []) c result out.old out.new (entry_values lent.now e (take (entry_rows e) (drop first table))) }
{
    let v = 128 * u64::from(e.has_eid) + 64 * u64::from(e.has_parameter) + e.aid as u64 % 32;
    let d = put(out, 1, v, e.aid < 32, c);
    let f = number_if(e.has_eid, e.eid as u64, out, d);
    parameter(
        e.has_parameter,
        lent,
        table,
        first,
        entry_rows(e),
        e.kind as u64,
        e.n as u64,
        e.start as usize,
        out,
        f,
    )
}

// The quill behind entries, and the rows that they have used.
#[derive(Clone, Copy, Debug, PartialEq, Eq)]
pub struct EntriesPut {
    pub quill: Quill,
    pub used: usize,
}

// A list of the n entries from `from` on; their rows start at `first`.
pub(crate) fn applications(
    lent: &[u8],
    list: [Entry; 32],
    from: usize,
    n: u64,
    table: [Row; 32],
    first: usize,
    out: &mut [u8],
    c: Quill,
) -> EntriesPut
    requires { (from ≤ 16) × (first < 65536) }
    ensures { Listed lent.now list from n table first c result out.old out.new }
{
    let d = entry_count(n, out, c);
    let mut q = d;
    let mut used = first;
    if !d.ok {
        return EntriesPut { quill: q, used };
    }
    for i in 0..n as usize {
        let e = list[from + i];
        q = application(lent, e, table, used, out, q);
        used += entry_rows(e);
    }
    EntriesPut { quill: q, used }
}
