// Numbers and octets that a word spells.
ghost use Rattle.std.specs.Prelude.{◌≤◌};

// The most digits of a LID.
const LID_DIGITS: usize = 8;

// The number that the digits of this base spell, if it is below 2^32.
fn spelled(word: &[u8], base: u32) -> Option<u32>
    requires { (2 ≤ base) × (base ≤ 16) }
{
    if word.is_empty() {
        return None;
    }
    let mut value: u32 = 0;
    for c in word {
        let digit = char::from(*c).to_digit(base)?;
        value = value.checked_mul(base)?.checked_add(digit)?;
    }
    Some(value)
}

pub(crate) fn decimal(word: &[u8]) -> Option<u32> {
    spelled(word, 10)
}

// A LID of 1 to 8 hex digits.
pub(crate) fn lid(word: &[u8]) -> Option<u32> {
    if LID_DIGITS < word.len() {
        return None;
    }
    spelled(word, 16)
}

// A number as a field of eight bits. One that is too large becomes the largest, which no call takes either.
pub(crate) fn narrow(n: u32) -> u8 {
    u8::try_from(n).unwrap_or(u8::MAX)
}

// Puts the octets that the hex digits of a word spell at the front of `out`, and answers how many they are.
pub(crate) fn read_octets(word: &[u8], out: &mut [u8]) -> Option<usize> {
    bench_lines::read_hex(word, word.len(), out).ok()
}
