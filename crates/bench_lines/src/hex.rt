// A line that is hex and nothing else.
ghost use Rattle.std.specs.Prelude.{◌≡◌, length};
ghost use Rattle.bench_lines.specs.Hex.{is_hex, read_hex, hex_answer, buffer_after_hex};

use crate::LineRefusal;
use crate::digits::{are_digits, put_octets};

// Reads an even number of hex digits, at most `most`, to octets at the front of `buffer`. A refusal changes nothing: first that the line is not of
// this form, then that the buffer is too small.
#[tactic(auto, using(std::proofs::lemmas::Bool::Decides::nat_tests), unfolding(crate::specs::Hex::is_hex, crate::specs::Hex::read_hex, crate::specs::Hex::buffer_after_hex))]
pub fn read_hex(line: &[u8], most: usize, buffer: &mut [u8]) -> Result<usize, LineRefusal>
    ensures { (hex_answer result ≡ read_hex line.now most (length buffer.old)) × (buffer.new ≡ buffer_after_hex (hex_answer result) line.now buffer.old) }
{
    if !is_hex(line, most) {
        return Err(LineRefusal::NotALine);
    }
    let octets = line.len() / 2;
    if buffer.len() < octets {
        return Err(LineRefusal::OutputTooSmall);
    }
    put_octets(line, buffer);
    Ok(octets)
}

#[tactic(auto, using(std::proofs::lemmas::Bool::Decides::nat_tests), unfolding(crate::specs::Hex::is_hex))]
fn is_hex(line: &[u8], most: usize) -> bool
    ensures { result ≡ is_hex line.now most }
{
    line.len() <= most && line.len() % 2 == 0 && are_digits(line, 16)
}
