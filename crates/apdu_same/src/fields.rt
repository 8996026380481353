// Fields of two records. A comparison stops where what went before differs.
ghost use Rattle.std.specs.Prelude.{◌≡◌, eqb};
ghost use Rattle.apdu_same.specs.Walk.{same_if, same_part};

// Two numbers, if they are there.
pub(crate) fn number_if(before: bool, p: bool, n: u64, m: u64) -> bool
    ensures { result ≡ same_if before p (eqb n m) }
{
    if before && p {
        return n == m;
    }
    before
}

// Two strings of n and m octets, or two lists of n and m ids, if they are there.
pub(crate) fn part_if(
    before: bool,
    p: bool,
    s: &[u8],
    start: usize,
    n: u64,
    t: &[u8],
    at: usize,
    m: u64,
) -> bool
    ensures { result ≡ same_if before p (same_part s.now start n t.now at m) }
{
    if before && p {
        return n == m && bits::same_string(s, start, t, at, n as usize);
    }
    before
}
