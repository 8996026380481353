// The fragment header.
ghost use Rattle.std.specs.Prelude.{◌≡◌, length};
ghost use Rattle.header.specs.Header.{read_header, write_header, output_after};
ghost use Rattle.exports.specs.Headers.{size_and_mark, read_number, header_from, written_number, UnpackingRead, UnpackingWritten, LargeNumber};

use crate::refused::refused;
use header::{Header, HeaderRead};
use words::packed;

// The header's octets, and 4 more with the last mark.
fn size_and_mark(size: usize, last: bool) -> usize
    ensures { result ≡ size_and_mark size last }
{
    size % 4 + 4 * usize::from(last)
}

// The header at the front of `s`: kind is the PDU number, first the counter, second the header's octets, and 4 more with the last mark. Refused 5.
#[unsafe(no_mangle)]
pub extern "C" fn semuryeon_header_read(s: &[u8]) -> u64
    ensures answer { result ≡ read_number (read_header s.now) }
    ensures unpacking { UnpackingRead }
{
    match header::read(s) {
        Ok(HeaderRead { header, size }) => packed(
            0,
            header.number,
            header.counter as usize,
            size_and_mark(size, header.last),
        ),
        Err(refusal) => refused(refusal),
    }
}

// Writes a header to the front of `out`: first is how many octets it has. `last` is 0 or any other number. Refused 23, 22.
#[unsafe(no_mangle)]
pub extern "C" fn semuryeon_header_write(
    last: u32,
    number: u32,
    counter: u32,
    out: &mut [u8],
) -> u64
    ensures answer { (result ≡ written_number (write_header (header_from last number counter) (length out.old))) × (out.new ≡ output_after (write_header (header_from last number counter) (length out.old)) (header_from last number counter) out.old) }
    ensures unpacking { UnpackingWritten }
    ensures large_number { LargeNumber }
{
    let fields = Header {
        last: last != 0,
        number: words::narrow(number),
        counter,
    };
    match header::write(fields, out) {
        Ok(octets) => packed(0, 0, octets, 0),
        Err(refusal) => refused(refusal),
    }
}
