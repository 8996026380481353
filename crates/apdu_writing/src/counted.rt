// Counts, container kinds and lists of ids.
ghost use Rattle.std.specs.Prelude.{true, [], ◌∷◌, ◌++◌, length};
ghost use Rattle.bits.specs.Strings.{is_inside};
ghost use Rattle.apdu_format.specs.Component.{integer, id_count, list_start, row_count, entry_count, entry, container};
ghost use Rattle.apdu_format.specs.Rules.{content, times};
ghost use Rattle.apdu.specs.Values.{num, id_list};
ghost use Rattle.apdu_writing.specs.Quill.{Moves, Puts, Few, Known};

use crate::quill::{Quill, put, put_octets, spend};
use apdu::known;

// A count of ids.
pub(crate) fn id_count(n: u64, out: &mut [u8], c: Quill) -> Quill
    ensures { Moves true (id_count ∷ []) ((list_start ∷ []) ++ times n (integer ∷ [])) c result out.old out.new (num n ∷ []) × Few n result }
{
    put(out, 1, n, n <= apdu::MOST_COUNTED, c)
}

// A count of application entries.
pub(crate) fn entry_count(n: u64, out: &mut [u8], c: Quill) -> Quill
    ensures { Moves true (entry_count ∷ []) (times n (entry ∷ [])) c result out.old out.new (num n ∷ []) × Few n result }
{
    put(out, 1, n, n <= apdu::MOST_COUNTED, c)
}

// A count of attribute rows whose containers stand at the given depth.
pub(crate) fn row_count(depth: usize, n: u64, out: &mut [u8], c: Quill) -> Quill
    ensures { Moves true (row_count depth ∷ []) (times n (integer ∷ container depth ∷ [])) c result out.old out.new (num n ∷ []) }
{
    let room = c.room as u64;
    // Speed: `&` of plain tests needs no jump.
    let few = (n <= apdu::MOST_COUNTED) & (n <= room);
    spend(n, put(out, 1, n, few, c))
}

// The kind of a container at the given depth.
pub(crate) fn kind(depth: usize, k: u64, out: &mut [u8], c: Quill) -> Quill
    ensures { Moves true (container depth ∷ []) (content depth k) c result out.old out.new (num k ∷ []) × Known depth k result }
{
    // Speed: `&` of plain tests needs no jump.
    let fine = (depth <= apdu::DEEPEST) & known(k);
    put(out, 1, k, fine, c)
}

// A list of n ids that stand in `lent` from bit place `start` on: one string of octets, if the first bit of each is 0.
pub(crate) fn ids(lent: &[u8], start: usize, n: u64, out: &mut [u8], c: Quill) -> Quill
    ensures { Puts (is_inside (length lent.now) start n) (id_count ∷ []) c result out.old out.new (id_list lent.now start n) }
{
    let d = id_count(n, out, c);
    if !d.ok {
        return d;
    }
    let fine = bits::first_bits_clear(lent, start, n as usize);
    put_octets(lent, start, n as usize, fine, out, d)
}
