// The components of 01, each by one function that writes nothing once a value is out of range.
ghost use Rattle.std.specs.Prelude.{true, [], ◌∷◌, length};
ghost use Rattle.refusals.specs.Check.{pick};
ghost use Rattle.bits.specs.Strings.{is_inside};
ghost use Rattle.apdu_format.specs.Component.{integer, string_form};
ghost use Rattle.apdu_format.specs.Rules.{when};
ghost use Rattle.apdu.specs.Values.{num, num_if, str, if};
ghost use Rattle.apdu_writing.specs.Quill.{Puts};

use crate::quill::{Quill, put, put_octets};

// A number 0..127.
pub(crate) fn number(n: u64, out: &mut [u8], c: Quill) -> Quill
    ensures { Puts true (integer ∷ []) c result out.old out.new (num n ∷ []) }
{
    put(out, 1, n, n < 128, c)
}

// A number 0..127, if it is there.
pub(crate) fn number_if(p: bool, n: u64, out: &mut [u8], c: Quill) -> Quill
    ensures { Puts true (when p (integer ∷ [])) c result out.old out.new (num_if p n) }
{
    if p {
        return number(n, out, c);
    }
    c
}

// An octet string with its length.
pub(crate) fn string(lent: &[u8], start: usize, n: u64, out: &mut [u8], c: Quill) -> Quill
    ensures { Puts (is_inside (length lent.now) start n) (string_form ∷ []) c result out.old out.new (str lent.now start n) }
{
    let length = put(out, 1, n, n < 128, c);
    if !length.ok {
        return length;
    }
    put_octets(lent, start, n as usize, true, out, length)
}

// An octet string, if it is there.
pub(crate) fn string_if(
    p: bool,
    lent: &[u8],
    start: usize,
    n: u64,
    out: &mut [u8],
    c: Quill,
) -> Quill
    ensures { Puts (pick p (is_inside (length lent.now) start n) true) (when p (string_form ∷ [])) c result out.old out.new (if p (str lent.now start n)) }
{
    if p {
        return string(lent, start, n, out, c);
    }
    c
}
