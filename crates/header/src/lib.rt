// The fragment header of ISO 15628, 6.3.3 (01, "Fragment header"): one to three octets in front of a fragment's payload.

#![tactic(auto)]

ghost use Rattle.std.specs.Prelude.{◌≡◌, ◌&&◌, ◌+◌, ◌*◌, ◌%◌, ◌<◌, ◌≤◌, eqb, length, get_or};
ghost use Rattle.header.specs.Header.{end_bit, header_length, counter_in, length_for, read_header, read_answer, bit_of, write_header, write_answer, output_after};
ghost use Rattle.header.specs.RoundTrip.{ReadingWritten, ReadingExact, WritingRead};

use refusals::Refusal;

#[derive(Clone, Copy, Debug, PartialEq, Eq)]
pub struct Header {
    // 01's last mark: this fragment ends its message.
    pub last: bool,
    // 01's message number (PDU number).
    pub number: u8,
    // The fragment counter.
    pub counter: u32,
}

// A header that was read, and its size in octets.
#[derive(Clone, Copy, Debug, PartialEq, Eq)]
pub struct HeaderRead {
    pub header: Header,
    pub size: usize,
}

pub const LARGEST_NUMBER: u8 = 15;

pub const LARGEST_COUNTER: u32 = 65535;

// Octet `i` of `s`, or 0 past its end.
fn octet(s: &[u8], i: usize) -> u32
    ensures { (result ≡ get_or s.now i 0) × (result < 256) }
{
    u32::from(bits::octet(s, i))
}

fn end_bit(s: &[u8], i: usize) -> u32
    ensures { result ≡ end_bit s.now i }
{
    octet(s, i) % 2
}

// How many octets the end bits give the header.
fn length_of(s: &[u8]) -> usize
    ensures { result ≡ header_length s.now }
{
    if end_bit(s, 0) == 1 {
        1
    } else if end_bit(s, 1) == 1 {
        2
    } else {
        3
    }
}

// The counter of a header of `n` octets.
fn counter_in(s: &[u8], n: usize) -> u32
    ensures { result ≡ counter_in s.now n }
{
    let one = octet(s, 0) / 2 % 4;
    if n == 1 {
        return one;
    }
    let two = one * 128 + octet(s, 1) / 2;
    if n == 2 {
        return two;
    }
    two * 128 + octet(s, 2) / 2
}

// How many octets a counter needs.
fn length_for(counter: u32) -> usize
    ensures { result ≡ length_for counter }
{
    if counter < 4 {
        1
    } else if counter < 512 {
        2
    } else {
        3
    }
}

// A third octet whose bit 0 is 1.
fn third_ends(s: &[u8], n: usize) -> bool
    ensures { result ≡ (eqb n 3 && eqb (end_bit s.now 2) 1) }
{
    n == 3 && end_bit(s, 2) == 1
}

// The header at the front of `s`; 5 where it is cut short, its third octet's bit 0 is 1, or it is longer than its counter needs.
pub fn read(s: &[u8]) -> Result<HeaderRead, Refusal>
    ensures answer { read_answer result ≡ read_header s.now }
    ensures written { ReadingWritten }
    ensures exact { ReadingExact }
{
    let size = length_of(s);
    if s.len() < size || third_ends(s, size) {
        return Err(Refusal::HeaderNotValid);
    }
    let counter = counter_in(s, size);
    if length_for(counter) < size {
        return Err(Refusal::HeaderNotValid);
    }
    let first = octet(s, 0);
    let header = Header {
        last: first / 128 == 1,
        number: (first / 8 % 16) as u8,
        counter,
    };
    Ok(HeaderRead { header, size })
}

// The first octet: last mark, number, two bits of counter, end bit.
fn first_octet(h: Header, counter: u32, end: u32) -> u8
    requires { (h.number ≤ 15) × (end ≤ 1) }
    ensures { result ≡ bit_of h.last * 128 + h.number * 8 + counter % 4 * 2 + end }
{
    (u32::from(h.last) * 128 + u32::from(h.number) * 8 + counter % 4 * 2 + end) as u8
}

// A second or third octet: seven bits of counter, end bit.
fn next_octet(counter: u32, end: u32) -> u8
    requires { end ≤ 1 }
    ensures { result ≡ counter % 128 * 2 + end }
{
    (counter % 128 * 2 + end) as u8
}

// Writes the header to the front of `out`; 23 for a field out of range, then 22 where `out` is too short.
pub fn write(h: Header, out: &mut [u8]) -> Result<usize, Refusal>
    ensures answer { (write_answer result ≡ write_header h (length out.old)) × (out.new ≡ output_after (write_answer result) h out.old) }
    ensures again { WritingRead }
{
    if LARGEST_NUMBER < h.number || LARGEST_COUNTER < h.counter {
        return Err(Refusal::RecordOutOfRange);
    }
    let n = length_for(h.counter);
    if out.len() < n {
        return Err(Refusal::OutputTooSmall);
    }
    if n == 1 {
        out[0] = first_octet(h, h.counter, 1);
    } else if n == 2 {
        out[0] = first_octet(h, h.counter / 128, 0);
        out[1] = next_octet(h.counter, 1);
    } else {
        out[0] = first_octet(h, h.counter / 16384, 0);
        out[1] = next_octet(h.counter / 128, 0);
        out[2] = next_octet(h.counter, 0);
    }
    Ok(n)
}
