// Text appended to a lent buffer from a place on: every other octet of the buffer stays, and where the text has no room, nothing is written (22).
ghost use Rattle.std.specs.Prelude.{◌≡◌, ℕ, List};
ghost use Rattle.refusals.specs.Refusal.{answer_of};
ghost use Rattle.bench_lines.specs.Line.{hex_text};
ghost use Rattle.bench_lines.specs.Text.{append_text, output_after};
ghost use Rattle.apdu_text.specs.Words.{heading};
ghost use Rattle.apdu_text.specs.Parts.{decimal};
ghost use Rattle.apdu_text.specs.MessageText.{message_text};
ghost use Rattle.apdu_text.specs.Lines.{refusal_text, totals_text};
ghost use Rattle.apdu_text.specs.Ink.{Writes};

use crate::pen::Pen;
use apdu::{Entry, Message, Row};
use refusals::Refusal;

#[derive(Clone, Copy)]
struct Totals {
    messages: u64,
    refused: u64,
    same: u64,
}

// Appends what `write` writes, which is measured first.
fn append<F: Fn(&mut Pen)>(out: &mut [u8], at: usize, write: F) -> Result<usize, Refusal>
    ghost text: { List ℕ }
    requires callable { F.IsAlwaysCallable write }
    requires writes { (p : _) (q : _) → F.post write p tt q → Writes text p.now q.now }
    ensures { (answer_of result ≡ append_text out.old at text) × (out.new ≡ output_after (answer_of result) out.old at text) }
{
    let mut measure = Pen { out: &mut [], at };
    write(&mut measure);
    if out.len() < measure.at {
        return Err(Refusal::OutputTooSmall);
    }
    let mut pen = Pen { out, at };
    write(&mut pen);
    Ok(pen.at)
}

// Appends characters as they are.
pub fn append_word(word: &[u8], out: &mut [u8], at: usize) -> Result<usize, Refusal>
    ensures { (answer_of result ≡ append_text out.old at word.now) × (out.new ≡ output_after (answer_of result) out.old at word.now) }
{
    append(out, at, |pen| pen.word(word))
}

// Appends a number in decimal.
pub fn append_decimal(n: u64, out: &mut [u8], at: usize) -> Result<usize, Refusal>
    ensures { (answer_of result ≡ append_text out.old at (decimal n)) × (out.new ≡ output_after (answer_of result) out.old at (decimal n)) }
{
    append(out, at, |pen| pen.decimal(n))
}

// Appends octets in upper-case hex.
pub fn append_hex(octets: &[u8], out: &mut [u8], at: usize) -> Result<usize, Refusal>
    ensures { (answer_of result ≡ append_text out.old at (hex_text octets.now)) × (out.new ≡ output_after (answer_of result) out.old at (hex_text octets.now)) }
{
    append(out, at, |pen| pen.hex(octets))
}

// Appends the text of a message, whatever its record holds.
pub fn append_message(
    message: Message,
    rows: [Row; 32],
    entries: [Entry; 32],
    lent: &[u8],
    out: &mut [u8],
    at: usize,
) -> Result<usize, Refusal>
    ensures { (answer_of result ≡ append_text out.old at (message_text lent.now message entries rows)) × (out.new ≡ output_after (answer_of result) out.old at (message_text lent.now message entries rows)) }
{
    append(out, at, |pen| pen.message(lent, message, &entries, &rows))
}

// Appends a refusal with its position; refusal 0 has none.
pub fn append_refusal(
    refusal: u8,
    position: usize,
    out: &mut [u8],
    at: usize,
) -> Result<usize, Refusal>
    ensures { (answer_of result ≡ append_text out.old at (refusal_text refusal position)) × (out.new ≡ output_after (answer_of result) out.old at (refusal_text refusal position)) }
{
    append(out, at, |pen| pen.refusal(refusal, position))
}

// Appends the heading, `line answer`.
pub fn append_heading(out: &mut [u8], at: usize) -> Result<usize, Refusal>
    ensures { (answer_of result ≡ append_text out.old at heading) × (out.new ≡ output_after (answer_of result) out.old at heading) }
{
    append_word(b"line answer\n", out, at)
}

// Appends the totals.
pub fn append_totals(
    messages: u64,
    refused: u64,
    same: u64,
    out: &mut [u8],
    at: usize,
) -> Result<usize, Refusal>
    ensures { (answer_of result ≡ append_text out.old at (totals_text messages refused same)) × (out.new ≡ output_after (answer_of result) out.old at (totals_text messages refused same)) }
{
    let totals = Totals {
        messages,
        refused,
        same,
    };
    append(out, at, |pen| pen.totals(totals))
}

impl Pen<'_> {
    // `refused-N at P`, or `refused-0`.
    fn refusal(&mut self, refusal: u8, position: usize)
        ensures { Writes (refusal_text refusal position) self.old self.new }
    {
        self.number(b"refused-", u64::from(refusal));
        self.number_if(refusal != 0, b" at ", position as u64);
    }

    fn totals(&mut self, t: Totals)
        ensures { Writes (totals_text t.messages t.refused t.same) self.old self.new }
    {
        self.number(b"messages ", t.messages);
        self.number(b" refused ", t.refused);
        self.number(b" same ", t.same);
        self.character(b'\n');
    }
}
