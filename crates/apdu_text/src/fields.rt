// Fields that are numbers, strings or lists of numbers.
ghost use Rattle.std.specs.Prelude.{◌≡◌, ◌++◌, ◌+◌, ◌*◌, ◌<◌};
ghost use Rattle.bits.specs.Bits.{field};
ghost use Rattle.bench_lines.specs.Line.{hex_text};
ghost use Rattle.apdu_text.specs.Parts.{decimal, shown, part_at, when, number_list};
ghost use Rattle.apdu_text.specs.Ink.{Writes};

use crate::pen::Pen;

// The octets in which a part may lie.
const REACH: usize = 65536;

// How many octets of a part are shown: none where it is not inside.
fn shown(octets: usize, start: usize, n: u64) -> usize
    ensures { result ≡ shown octets start n }
{
    let n = n as usize;
    if bits::inside(octets, start, n) && bits::inside(REACH, start, n) {
        n
    } else {
        0
    }
}

// Octet `k` of a part.
fn octet(s: &[u8], start: usize, k: usize) -> u8
    requires { start + 8 * k < 524288 }
    ensures { result ≡ field s.now (start + 8 * k) 8 }
{
    bits::read_field(s, start + 8 * k, 8) as u8
}

impl Pen<'_> {
    // The octets of a part in hex.
    fn part(&mut self, s: &[u8], start: usize, n: u64)
        ensures { Writes (hex_text (part_at s.now start n)) self.old self.new }
    {
        let most = shown(s.len(), start, n);
        // Where no character has room, as in measuring, the place goes on at once.
        if self.out.len() <= self.at {
            self.at = self.at.saturating_add(2 * most);
            return;
        }
        let mut pen = Pen {
            out: &mut *self.out,
            at: self.at,
        };
        for k in 0..most {
            pen.octet(octet(s, start, k));
        }
        self.at = pen.at;
    }

    // The numbers of a part in brackets.
    fn numbers(&mut self, s: &[u8], start: usize, n: u64)
        ensures { Writes (number_list (part_at s.now start n)) self.old self.new }
    {
        let most = shown(s.len(), start, n);
        self.character(b'[');
        for k in 0..most {
            self.decimal(u64::from(octet(s, start, k)));
            if k + 1 < most {
                self.character(b',');
            }
        }
        self.character(b']');
    }

    pub(crate) fn number(&mut self, name: &[u8], n: u64)
        ensures { Writes (name.now ++ decimal n) self.old self.new }
    {
        self.word(name);
        self.decimal(n);
    }

    pub(crate) fn number_if(&mut self, is: bool, name: &[u8], n: u64)
        ensures { Writes (when is (name.now ++ decimal n)) self.old self.new }
    {
        if is {
            self.number(name, n);
        }
    }

    pub(crate) fn string(&mut self, name: &[u8], s: &[u8], start: usize, n: u64)
        ensures { Writes (name.now ++ hex_text (part_at s.now start n)) self.old self.new }
    {
        self.word(name);
        self.part(s, start, n);
    }

    pub(crate) fn string_if(&mut self, is: bool, name: &[u8], s: &[u8], start: usize, n: u64)
        ensures { Writes (when is (name.now ++ hex_text (part_at s.now start n))) self.old self.new }
    {
        if is {
            self.string(name, s, start, n);
        }
    }

    pub(crate) fn list(&mut self, name: &[u8], s: &[u8], start: usize, n: u64)
        ensures { Writes (name.now ++ number_list (part_at s.now start n)) self.old self.new }
    {
        self.word(name);
        self.numbers(s, start, n);
    }

    pub(crate) fn list_if(&mut self, is: bool, name: &[u8], s: &[u8], start: usize, n: u64)
        ensures { Writes (when is (name.now ++ number_list (part_at s.now start n))) self.old self.new }
    {
        if is {
            self.list(name, s, start, n);
        }
    }
}
