// Octet strings that start at any bit place.
ghost use Rattle.std.specs.Prelude.{◌≡◌, ◌++◌, ◌+◌, ◌*◌, ◌^◌, ◌<◌, ◌≤◌, length, take, drop};
ghost use Rattle.bits.specs.Bits.{field};
ghost use Rattle.bits.specs.Strings.{is_inside, string_at, same_octets, same_string, copy_fits, copy_string, write_fits, write_string, first_bits_clear};

use crate::field::{field_in, put_field};

// Whether `n` octets from bit place `start` lie inside so many octets, whatever the numbers.
pub fn inside(octets: usize, start: usize, n: usize) -> bool
    ensures { result ≡ is_inside octets start n }
{
    let first = start.div_ceil(8);
    first <= octets && n <= octets - first
}

// Octet `k` of the string of which octet 0 starts `skip` bits into octet `first`.
fn string_octet(s: &[u8], first: usize, skip: usize, k: usize) -> u8
    requires { (skip < 8) × (first + k + 2 < 2 ^ 64) }
    ensures { result ≡ field s.now (8 * first + skip + 8 * k) 8 }
{
    field_in(s, first + k, skip, 8) as u8
}

// Copies the `n` octets from octet `first` of `s` on to `out` from octet `at` on. One by one: `copy_from_slice` would have the archive ask for `memmove`.
fn copy_octets(s: &[u8], first: usize, n: usize, out: &mut [u8], at: usize)
    requires { (first + n ≤ length s.now) × (at + n ≤ length out.old) }
    ensures { out.new ≡ take at out.old ++ (string_at s.now (8 * first) n ++ drop (at + n) out.old) }
{
    for k in 0..n {
        out[at + k] = s[first + k];
    }
}

// Whether the `n` octets from octet `first` of `s` on are those from octet `other` of `t` on. It goes to the end, so that it compares many at once.
fn same_octets(s: &[u8], first: usize, t: &[u8], other: usize, n: usize) -> bool
    requires { (first + n ≤ length s.now) × (other + n ≤ length t.now) }
    ensures { result ≡ same_octets (string_at s.now (8 * first) n) (string_at t.now (8 * other) n) }
{
    let mut same = true;
    for k in 0..n {
        same &= s[first + k] == t[other + k];
    }
    same
}

// Copies the `n` octets from bit place `start` of `s` to `out` from octet `at` on. False, and nothing copied, where either part is not inside.
pub fn copy_string(s: &[u8], start: usize, n: usize, out: &mut [u8], at: usize) -> bool
    ensures { (result ≡ copy_fits s.now start n out.old at) × (out.new ≡ copy_string s.now start n out.old at) }
{
    if !inside(s.len(), start, n) || out.len() < n || out.len() - n < at {
        return false;
    }
    let first = start / 8;
    let skip = start % 8;
    if skip == 0 {
        copy_octets(s, first, n, out, at);
        return true;
    }
    for k in 0..n {
        out[at + k] = string_octet(s, first, skip, k);
    }
    true
}

// Whether the `n` octets from bit place `start` of `s` and those from bit place `at` of `t` are inside and the same.
pub fn same_string(s: &[u8], start: usize, t: &[u8], at: usize, n: usize) -> bool
    ensures { result ≡ same_string s.now start t.now at n }
{
    if !inside(s.len(), start, n) || !inside(t.len(), at, n) {
        return false;
    }
    if start % 8 + at % 8 == 0 {
        return same_octets(s, start / 8, t, at / 8, n);
    }
    (0..n).all(|k| {
        let a = string_octet(s, start / 8, start % 8, k);
        let b = string_octet(t, at / 8, at % 8, k);
        a == b
    })
}

// Writes the `n` octets from bit place `start` of `s` to `out` from bit place `at` on. False, and nothing written, where either part is not inside.
pub fn write_string(s: &[u8], start: usize, n: usize, out: &mut [u8], at: usize) -> bool
    ensures { (result ≡ write_fits s.now start n out.old at) × (out.new ≡ write_string s.now start n out.old at) }
{
    if !inside(s.len(), start, n) || !inside(out.len(), at, n) {
        return false;
    }
    if start % 8 + at % 8 == 0 {
        copy_octets(s, start / 8, n, out, at / 8);
        return true;
    }
    for k in 0..n {
        let o = string_octet(s, start / 8, start % 8, k);
        put_field(out, at / 8 + k, at % 8, 8, u64::from(o));
    }
    true
}

// Whether the `n` octets from bit place `start` of `s` are inside, and the first bit of each is 0.
pub fn first_bits_clear(s: &[u8], start: usize, n: usize) -> bool
    ensures { result ≡ first_bits_clear s.now start n }
{
    inside(s.len(), start, n) && (0..n).all(|k| string_octet(s, start / 8, start % 8, k) < 128)
}
