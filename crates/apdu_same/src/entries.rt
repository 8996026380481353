// Application entries of two records, with their attribute rows.
ghost use Rattle.std.specs.Prelude.{◌≡◌, ◌<◌, take, drop};
ghost use Rattle.apdu.specs.Values.{rows_of};
ghost use Rattle.apdu_same.specs.Walk.{same_if, same_entry, lists_rows, same_entries, same_applications};

use crate::fields::number_if;
use crate::rows::{head, rows};
use apdu::{Entry, Row, clamped, entry_rows};

// Two entries without the rows of their parameters.
fn entry(s: &[u8], e: Entry, t: &[u8], f: Entry) -> bool
    ensures { result ≡ same_entry s.now e t.now f }
{
    let lead = (e.has_eid == f.has_eid) & ((e.has_parameter == f.has_parameter) & (e.aid == f.aid));
    let eid = number_if(lead, e.has_eid, e.eid as u64, f.eid as u64);
    if eid && e.has_parameter {
        return head(
            s,
            e.kind as u64,
            e.n as u64,
            e.start as usize,
            t,
            f.kind as u64,
            f.n as u64,
            f.start as usize,
        );
    }
    eid
}

// Whether the parameter of an entry is an attribute list.
fn lists_rows(e: Entry) -> bool
    ensures { result ≡ lists_rows e }
{
    e.has_parameter && e.kind as u64 == apdu::ATTRIBUTE_LIST
}

// How many rows the first n entries have.
pub(crate) fn rows_of(list: [Entry; 32], n: usize) -> usize
    ensures { (result ≡ rows_of (take n list)) × (result < 65536) }
{
    let mut used = 0;
    for entry in &list[..clamped(0, n)] {
        used += entry_rows(*entry);
    }
    used
}

// The n entries from `from` on of either list; the rows of one start at `first`, those of the other at `at`.
fn applications(
    s: &[u8],
    list: [Entry; 32],
    table: [Row; 32],
    first: usize,
    t: &[u8],
    other: [Entry; 32],
    others: [Row; 32],
    at: usize,
    from: usize,
    n: usize,
) -> bool
    requires { (first < 65536) × (at < 65536) }
    ensures { result ≡ same_entries s.now (take n (drop from list)) (drop first table) t.now (take n (drop from other)) (drop at others) }
{
    let k = clamped(from, n);
    let mut used = first;
    let mut gone = at;
    for i in 0..k {
        let e = list[from + i];
        let f = other[from + i];
        if !entry(s, e, t, f) {
            return false;
        }
        let own = entry_rows(e);
        let theirs = entry_rows(f);
        if lists_rows(e) && !rows(s, table, used, own, t, others, gone, theirs) {
            return false;
        }
        used += own;
        gone += theirs;
    }
    true
}

// Two lists of n and m entries from `from` on, if they are there.
pub(crate) fn applications_if(
    before: bool,
    p: bool,
    s: &[u8],
    n: u64,
    list: [Entry; 32],
    table: [Row; 32],
    first: usize,
    t: &[u8],
    m: u64,
    other: [Entry; 32],
    others: [Row; 32],
    at: usize,
    from: usize,
) -> bool
    requires { (first < 65536) × (at < 65536) }
    ensures { result ≡ same_if before p (same_applications s.now n (take n (drop from list)) (drop first table) t.now m (take n (drop from other)) (drop at others)) }
{
    if before && p {
        return n == m
            && applications(
                s, list, table, first, t, other, others, at, from, n as usize,
            );
    }
    before
}
