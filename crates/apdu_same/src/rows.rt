// Containers and attribute rows of two records.
ghost use Rattle.std.specs.Prelude.{◌≡◌, ◌-◌, take, drop};
ghost use Rattle.apdu_same.specs.Walk.{same_if, same_head, same_row, same_rows, same_box, same_list};

use apdu::{Row, clamped};

// Two containers without their rows.
pub(crate) fn head(
    s: &[u8],
    k: u64,
    n: u64,
    start: usize,
    t: &[u8],
    l: u64,
    m: u64,
    at: usize,
) -> bool
    ensures { result ≡ same_head s.now k n start t.now l m at }
{
    if k != l || n != m {
        return false;
    }
    match k {
        apdu::OCTET_STRING | apdu::ATTRIBUTE_ID_LIST => {
            bits::same_string(s, start, t, at, n as usize)
        }
        _ => true,
    }
}

// Two rows.
fn row(s: &[u8], v: Row, t: &[u8], w: Row) -> bool
    ensures { result ≡ same_row s.now v t.now w }
{
    v.id == w.id
        && head(
            s,
            v.kind as u64,
            v.n as u64,
            v.start as usize,
            t,
            w.kind as u64,
            w.n as u64,
            w.start as usize,
        )
}

// The `count` rows of one table from `first` on, and the `size` rows of the other from `from` on.
pub(crate) fn rows(
    s: &[u8],
    table: [Row; 32],
    first: usize,
    count: usize,
    t: &[u8],
    other: [Row; 32],
    from: usize,
    size: usize,
) -> bool
    ensures { result ≡ same_rows s.now (take count (drop first table)) t.now (take size (drop from other)) }
{
    let n = clamped(first, count);
    if n != clamped(from, size) {
        return false;
    }
    for i in 0..n {
        if !row(s, table[first + i], t, other[from + i]) {
            return false;
        }
    }
    true
}

// Two containers with the first rows of their tables, if they are there.
pub(crate) fn boxed_if(
    before: bool,
    p: bool,
    s: &[u8],
    k: u64,
    n: u64,
    start: usize,
    table: [Row; 32],
    count: usize,
    t: &[u8],
    l: u64,
    m: u64,
    at: usize,
    other: [Row; 32],
    size: usize,
) -> bool
    ensures { result ≡ same_if before p (same_box s.now k n start (take count table) t.now l m at (take size other)) }
{
    if before && p {
        return head(s, k, n, start, t, l, m, at)
            && (k != apdu::ATTRIBUTE_LIST || rows(s, table, 0, count, t, other, 0, size));
    }
    before
}

// Two attribute lists of n and m attributes with the first rows of their tables, if they are there.
pub(crate) fn attributes_if(
    before: bool,
    p: bool,
    s: &[u8],
    n: u64,
    table: [Row; 32],
    count: usize,
    t: &[u8],
    m: u64,
    other: [Row; 32],
    size: usize,
) -> bool
    ensures { result ≡ same_if before p (same_list s.now n (take count table) t.now m (take size other)) }
{
    if before && p {
        return n == m && rows(s, table, 0, count, t, other, 0, size);
    }
    before
}
