// Digits of numbers, read and written.
ghost use Rattle.std.specs.Prelude.{◌≡◌, ◌+◌, ◌*◌, ◌/◌, ◌%◌, ◌≤◌, ◌<◌, ◌++◌, true, length, take, drop};
ghost use Rattle.bench_lines.specs.Numerals.{digit_value, all_digits, spelled, octets_of, digits_before, width};
ghost use Rattle.bench_lines.specs.Inside.{small};

// The value of a hex digit of either case; 16 for any other character.
#[tactic(auto, using(std::proofs::lemmas::Bool::Decides::nat_tests), unfolding(crate::specs::Numerals::digit_value))]
fn digit_value(c: u8) -> u64
    ensures { (result ≡ digit_value c) × (result ≤ 16) }
{
    match c {
        b'0'..=b'9' => u64::from(c - b'0'),
        b'A'..=b'F' => u64::from(c - b'A') + 10,
        b'a'..=b'f' => u64::from(c - b'a') + 10,
        _ => 16,
    }
}

// Whether each character is a digit of this base.
pub(crate) fn are_digits(s: &[u8], base: u64) -> bool
    ensures { result ≡ all_digits base s.now }
{
    s.iter().all(|c| digit_value(*c) < base)
}

// The number that digits spell, if it is below 2^32.
pub(crate) fn number_of(s: &[u8], base: u64) -> Option<u32>
    requires { (1 ≤ base) × (base ≤ 16) }
    ensures { result ≡ small (spelled base s.now) }
{
    let mut number: u32 = 0;
    for c in s {
        number = u32::try_from(u64::from(number) * base + digit_value(*c)).ok()?;
    }
    Some(number)
}

// The octet that two hex digits spell.
fn octet_of(high: u8, low: u8) -> u8
    requires { (digit_value high < 16) × (digit_value low < 16) }
    ensures { result ≡ digit_value high * 16 + digit_value low }
{
    (digit_value(high) * 16 + digit_value(low)) as u8
}

// Writes the octets that hex digits spell to the front of `out`. Not inlined: as a call's arguments the two slices are known not to overlap, so that several
// octets are computed at once.
#[inline(never)]
pub(crate) fn put_octets(s: &[u8], out: &mut [u8])
    requires { (length s.now % 2 ≡ 0) × (length s.now / 2 ≤ length out.old) × (all_digits 16 s.now ≡ true) }
    ensures { out.new ≡ octets_of s.now ++ drop (length s.now / 2) out.old }
{
    for k in 0..s.len() / 2 {
        out[k] = octet_of(s[2 * k], s[2 * k + 1]);
    }
}

// How many decimal digits `n` has without leading zeros: at most 20.
pub(crate) fn width_of(n: u64) -> usize
    ensures { (result ≡ width n) × (result ≤ 20) }
{
    1 + n.checked_ilog10().unwrap_or(0) as usize
}

// Writes the `k` last decimal digits of `n` to `out` from place `at` on.
pub(crate) fn put_digits(out: &mut [u8], at: usize, k: usize, n: u64)
    requires { at + k ≤ length out.old }
    ensures { out.new ≡ take at out.old ++ digits_before 10 k n (drop (at + k) out.old) }
{
    let mut rest = n;
    for i in (0..k).rev() {
        out[at + i] = b'0' + (rest % 10) as u8;
        rest /= 10;
    }
}
