// Containers and attribute lists with their rows.
ghost use Rattle.std.specs.Prelude.{[], ◌∷◌, length, take, drop};
ghost use Rattle.apdu_format.specs.Component.{container, row_count, id_count};
ghost use Rattle.apdu_format.specs.Rules.{when};
ghost use Rattle.bits.specs.Strings.{is_inside};
ghost use Rattle.apdu.specs.Values.{num, if, id_list, container_values, rows_values};
ghost use Rattle.apdu_writing.specs.Quill.{Puts};
ghost use Rattle.apdu.specs.Sound.{sound_if, rows_sound, container_sound};

use crate::container::head;
use crate::counted::{ids, row_count};
use crate::quill::Quill;
use crate::rows::{halt, rows};
use apdu::{Due, Row, announces};

// A container at depth 1 with the `count` rows of the table from `first` on.
pub(crate) fn boxed(
    lent: &[u8],
    table: [Row; 32],
    first: usize,
    count: usize,
    k: u64,
    n: u64,
    start: usize,
    out: &mut [u8],
    c: Quill,
) -> Quill
    ensures { Puts (container_sound (length lent.now) k n start (take count (drop first table))) (container 1 ∷ []) c result out.old out.new (container_values lent.now k n start (take count (drop first table))) }
{
    let d = head(lent, 1, k, n, start, out, c);
    let announced = announces(k, n);
    if count == 0 {
        if announced == 0 {
            return d;
        }
        return halt(d);
    }
    let due = Due {
        d1: 0,
        d2: announced,
        d3: 0,
        d4: 0,
        d5: 0,
    };
    rows(lent, table, first, count, due, out, d)
}

// The same, if it is there.
pub(crate) fn boxed_if(
    p: bool,
    lent: &[u8],
    table: [Row; 32],
    count: usize,
    k: u64,
    n: u64,
    start: usize,
    out: &mut [u8],
    c: Quill,
) -> Quill
    ensures { Puts (sound_if p (container_sound (length lent.now) k n start (take count table))) (when p (container 1 ∷ [])) c result out.old out.new (if p (container_values lent.now k n start (take count table))) }
{
    if p {
        return boxed(lent, table, 0, count, k, n, start, out, c);
    }
    c
}

// An attribute list of n rows, with the first `count` rows of the table.
pub(crate) fn attributes(
    lent: &[u8],
    table: [Row; 32],
    count: usize,
    n: u64,
    out: &mut [u8],
    c: Quill,
) -> Quill
    ensures { Puts (rows_sound (length lent.now) n (take count table)) (row_count 1 ∷ []) c result out.old out.new (num n ∷ rows_values lent.now (take count table)) }
{
    let d = row_count(1, n, out, c);
    let due = Due {
        d1: n,
        d2: 0,
        d3: 0,
        d4: 0,
        d5: 0,
    };
    rows(lent, table, 0, count, due, out, d)
}

// The same, if it is there.
pub(crate) fn attributes_if(
    p: bool,
    lent: &[u8],
    table: [Row; 32],
    count: usize,
    n: u64,
    out: &mut [u8],
    c: Quill,
) -> Quill
    ensures { Puts (sound_if p (rows_sound (length lent.now) n (take count table))) (when p (row_count 1 ∷ [])) c result out.old out.new (if p (num n ∷ rows_values lent.now (take count table))) }
{
    if p {
        return attributes(lent, table, count, n, out, c);
    }
    c
}

// A list of ids, if it is there.
pub(crate) fn ids_if(p: bool, lent: &[u8], start: usize, n: u64, out: &mut [u8], c: Quill) -> Quill
    ensures { Puts (sound_if p (is_inside (length lent.now) start n)) (when p (id_count ∷ [])) c result out.old out.new (if p (id_list lent.now start n)) }
{
    if p {
        return ids(lent, start, n, out, c);
    }
    c
}
