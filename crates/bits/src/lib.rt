// Bits of octets, most significant first: a field of up to 48 bits, and a string of octets, read and written at any bit place.
// No function asks anything of its caller: a bit past the end reads as 0, and a write that does not fit changes nothing.

#![tactic(auto)]

mod field;
mod string;

pub use field::{octet, read_field, write_field};
pub use string::{copy_string, first_bits_clear, inside, same_string, write_string};
