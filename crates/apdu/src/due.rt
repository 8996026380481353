// The attribute rows that are still to come, list in list: what reading and writing both count.
ghost use Rattle.std.specs.Prelude.{◌≡◌, ◌-◌, ◌≤◌};
ghost use Rattle.apdu_format.specs.Rules.{known_kind};
ghost use Rattle.apdu.specs.Sound.{nested};
ghost use Rattle.apdu.specs.RowCounters.{level_of, after_row};

use crate::limits::{ATTRIBUTE_ID_LIST, ATTRIBUTE_LIST, DSRC_EID, OCTET_STRING};

// Whether a container kind is read and written here.
pub fn known(kind: u64) -> bool
    ensures { result ≡ known_kind kind }
{
    matches!(
        kind,
        OCTET_STRING | DSRC_EID | ATTRIBUTE_ID_LIST | ATTRIBUTE_LIST
    )
}

// How many rows a container announces.
pub fn announces(kind: u64, n: u64) -> u64
    ensures { result ≡ nested kind n }
{
    if kind == ATTRIBUTE_LIST { n } else { 0 }
}

// How many rows are still to come in the list whose containers stand at depth 1, 2, .. 5.
#[derive(Clone, Copy, Debug, Default, PartialEq, Eq)]
pub struct Due {
    pub d1: u64,
    pub d2: u64,
    pub d3: u64,
    pub d4: u64,
    pub d5: u64,
}

// The depth of the next row's container: that of the innermost list with rows to come.
pub fn level(o: Due) -> usize
    ensures { (result ≡ level_of o) × (result ≤ 5) }
{
    if o.d5 != 0 {
        5
    } else if o.d4 != 0 {
        4
    } else if o.d3 != 0 {
        3
    } else if o.d2 != 0 {
        2
    } else {
        1
    }
}

// What is due after one row, whose container announces n rows.
pub fn after_row(o: Due, n: u64) -> Due
    ensures { result ≡ after_row o n }
{
    if o.d5 != 0 {
        Due { d5: o.d5 - 1, ..o }
    } else if o.d4 != 0 {
        Due {
            d4: o.d4 - 1,
            d5: n,
            ..o
        }
    } else if o.d3 != 0 {
        Due {
            d3: o.d3 - 1,
            d4: n,
            ..o
        }
    } else if o.d2 != 0 {
        Due {
            d2: o.d2 - 1,
            d3: n,
            ..o
        }
    } else {
        Due {
            d1: o.d1.saturating_sub(1),
            d2: n,
            ..o
        }
    }
}
