// An answer as one number: refusal, kind, and two numbers.
ghost use Rattle.std.specs.Prelude.{◌≡◌};
ghost use Rattle.words.specs.Answer.{answer_number, UnpackingAnswer};

// The two numbers have 24 bits each.
const BOUND: u64 = 16777216;

// Eight bits of refusal number (0: none), eight of kind, and 24 of each number, from the lowest on.
pub fn packed(number: u8, kind: u8, first: usize, second: usize) -> u64
    ensures answer { result ≡ answer_number number kind first second }
    ensures unpacking { UnpackingAnswer }
{
    let low = u64::from(number) + 256 * u64::from(kind);
    let high = (first as u64) % BOUND + BOUND * ((second as u64) % BOUND);
    low + 65536 * high
}
