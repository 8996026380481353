// Single words.
ghost use Rattle.std.specs.Prelude.{◌≡◌, get_or, set};
ghost use Rattle.words.specs.Word.{narrow_to};

// Word `i`, or 0 past the end.
pub(crate) fn word(words: &[u32], i: usize) -> u32
    ensures { result ≡ get_or words.now i 0 }
{
    words.get(i).copied().unwrap_or(0)
}

// Sets word `i`; past the end nothing changes.
pub(crate) fn put(words: &mut [u32], i: usize, x: u32)
    ensures { words.new ≡ set words.old i x }
{
    // Through `get_mut` the proof has no name for the words afterwards.
    if i < words.len() {
        words[i] = x;
    }
}

// A number of eight bits; 255 for a larger one, which no call takes.
pub fn narrow(x: u32) -> u8
    ensures { result ≡ narrow_to 8 x }
{
    u8::try_from(x).unwrap_or(u8::MAX)
}

// A word; the largest for a larger number.
pub(crate) fn narrow_word(x: u64) -> u32
    ensures { result ≡ narrow_to 32 x }
{
    u32::try_from(x).unwrap_or(u32::MAX)
}
