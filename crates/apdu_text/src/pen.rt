// The pen: a place in the output. A character is set where the output has room, and the place goes on: so one code measures and writes.
ghost use Rattle.std.specs.Prelude.{◌/◌, ◌%◌, ◌<◌, ◌≡◌, [], ◌∷◌};
ghost use Rattle.bench_lines.specs.Numerals.{digit_for};
ghost use Rattle.bench_lines.specs.Line.{hex_text};
ghost use Rattle.apdu_text.specs.Parts.{decimal};
ghost use Rattle.apdu_text.specs.Ink.{Writes};

#[derive(Drop)]
pub struct Pen<'a> {
    pub out: &'a mut [u8],
    pub at: usize,
}

// The character of a hex digit.
fn digit(d: u8) -> u8
    requires { d < 16 }
    ensures { result ≡ digit_for d }
{
    if d < 10 { b'0' + d } else { b'A' - 10 + d }
}

impl Pen<'_> {
    // One character.
    pub(crate) fn character(&mut self, c: u8)
        ensures { Writes (c ∷ []) self.old self.new }
    {
        if self.at < self.out.len() {
            self.out[self.at] = c;
        }
        self.at = self.at.saturating_add(1);
    }

    // As many of the characters as have room are set at once.
    pub(crate) fn word(&mut self, word: &[u8])
        ensures { Writes word.now self.old self.new }
    {
        let at = self.at;
        if at < self.out.len() {
            let room = self.out.len() - at;
            if word.len() <= room {
                self.out[at..at + word.len()].copy_from_slice(word);
            } else {
                self.out[at..at + room].copy_from_slice(&word[..room]);
            }
        }
        self.at = at.saturating_add(word.len());
    }

    // A number in decimal: 20 digits are enough, set from the last on.
    pub(crate) fn decimal(&mut self, n: u64)
        ensures { Writes (decimal n) self.old self.new }
    {
        if n < 10 {
            self.character(b'0' + n as u8);
            return;
        }
        let mut digits = [0u8; 20];
        let mut rest = n;
        for i in (0..20usize).rev() {
            digits[i] = b'0' + (rest % 10) as u8;
            rest /= 10;
            if rest == 0 {
                self.word(&digits[i..]);
                return;
            }
        }
    }

    // An octet in hex.
    pub(crate) fn octet(&mut self, o: u8)
        ensures { Writes (digit_for (o / 16) ∷ (digit_for (o % 16) ∷ [])) self.old self.new }
    {
        self.character(digit(o / 16));
        self.character(digit(o % 16));
    }

    // Octets in hex. They are set by a local pen, whose place need not be stored at each character.
    pub(crate) fn hex(&mut self, octets: &[u8])
        ensures { Writes (hex_text octets.now) self.old self.new }
    {
        let mut pen = Pen {
            out: &mut *self.out,
            at: self.at,
        };
        for o in octets {
            pen.octet(*o);
        }
        self.at = pen.at;
    }
}
