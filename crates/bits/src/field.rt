// Fields, by whole octets: at most seven octets hold a field's bits and are taken as one number.
ghost use Rattle.std.specs.Prelude.{◌≡◌, ◌+◌, ◌*◌, ◌/◌, ◌%◌, ◌^◌, ◌<◌, ◌≤◌, length, get_or, take, drop, ◌++◌};
ghost use Rattle.bits.specs.Bits.{field, digits, put_bits, read_field, field_fits, write_field};
ghost use Rattle.bits.specs.Window.{bytes, merge};

// The widest field: with up to seven bits in front of it, it lies in seven octets.
pub const WIDEST: usize = 48;

// Octet `i` of `s`, or 0 past its end.
pub fn octet(s: &[u8], i: usize) -> u8
    ensures { result ≡ get_or s.now i 0 }
{
    s.get(i).copied().unwrap_or(0)
}

// The `n` octets from `first` on as one number.
fn window(s: &[u8], first: usize, n: usize) -> u64
    requires { (n ≤ 7) × (first + n < 2 ^ 64) }
    ensures { (result ≡ field s.now (8 * first) (8 * n)) × (result < 2 ^ 56) }
{
    // One octet is the most frequent window; without a loop it is read faster.
    if n == 1 {
        return u64::from(octet(s, first));
    }
    let mut v = 0;
    for k in 0..n {
        v = v * 256 + u64::from(octet(s, first + k));
    }
    v
}

// The `k` low bits of `v`.
fn low(v: u64, k: usize) -> u64
    requires { k < 64 }
    ensures { result ≡ v % 2 ^ k }
{
    v & ((1 << k) - 1)
}

// The `width` bits that start `skip` bits into octet `first`.
pub(crate) fn field_in(s: &[u8], first: usize, skip: usize, width: usize) -> u64
    requires { (skip < 8) × (width ≤ 48) × (first + (skip + width + 7) / 8 < 2 ^ 64) }
    ensures { result ≡ field s.now (8 * first + skip) width }
{
    let n = (skip + width).div_ceil(8);
    let over = n * 8 - skip - width;
    low(window(s, first, n) >> over, width)
}

// The `width` bits from bit place `at` as a number; 0 for a width above 48.
pub fn read_field(s: &[u8], at: usize, width: usize) -> u64
    ensures { result ≡ read_field s.now at width }
{
    if WIDEST < width {
        return 0;
    }
    // Whole octets are read without a window, for speed.
    if width == 8 && at % 8 == 0 {
        return u64::from(octet(s, at / 8));
    }
    field_in(s, at / 8, at % 8, width)
}

// `whole` with the `width` bits above its `over` low ones replaced by the low bits of `v`.
fn merged(whole: u64, width: usize, over: usize, v: u64) -> u64
    requires { (whole < 2 ^ 56) × (width ≤ 48) × (over ≤ 7) }
    ensures { result ≡ merge whole width over v }
{
    whole - low(whole, width + over) + (low(v, width) << over) + low(whole, over)
}

// Sets the `n` octets from `first` on to the low octets of `v`.
fn put_window(out: &mut [u8], first: usize, n: usize, v: u64)
    requires { first + n ≤ length out.old }
    ensures { out.new ≡ take first out.old ++ bytes n v (drop (first + n) out.old) }
{
    // One octet is the most frequent window; without a loop it is written faster.
    if n == 1 {
        out[first] = (v % 256) as u8;
        return;
    }
    let mut rest = v;
    for k in (0..n).rev() {
        out[first + k] = (rest % 256) as u8;
        rest /= 256;
    }
}

// Writes the `width` low bits of `v`, `skip` bits into octet `first`.
pub(crate) fn put_field(out: &mut [u8], first: usize, skip: usize, width: usize, v: u64)
    requires { (skip < 8) × (width ≤ 48) × (8 * first + skip + width ≤ 8 * length out.old) }
    ensures { out.new ≡ put_bits out.old (8 * first + skip) (digits width v) }
{
    let n = (skip + width).div_ceil(8);
    let over = n * 8 - skip - width;
    let whole = window(out, first, n);
    put_window(out, first, n, merged(whole, width, over, v));
}

// Writes the `width` low bits of `v` from bit place `at` on. False, and nothing written, where they do not fit or are more than 48.
pub fn write_field(out: &mut [u8], at: usize, width: usize, v: u64) -> bool
    ensures { (result ≡ field_fits (length out.old) at width) × (out.new ≡ write_field out.old at width v) }
{
    if WIDEST < width {
        return false;
    }
    let first = at / 8;
    let skip = at % 8;
    // Whole octets are written without a window, for speed.
    if width == 8 && skip == 0 {
        if out.len() <= first {
            return false;
        }
        out[first] = (v % 256) as u8;
        return true;
    }
    if out.len() < first + (skip + width).div_ceil(8) {
        return false;
    }
    put_field(out, first, skip, width, v);
    true
}
