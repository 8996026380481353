// The components of 01, each by one function that leaves a cursor with a fault as it is.
ghost use Rattle.std.specs.Prelude.{◌≡◌, [], ◌∷◌, true, ◌<◌, ◌≤◌, length};
ghost use Rattle.apdu_format.specs.Component.{integer, string_form, id_count, row_count, entry_count, entry, container, choice};
ghost use Rattle.apdu.specs.Values.{str, id_list};
ghost use Rattle.apdu_reading.specs.Cursor.{component, ReadsTo, Inside};

use crate::cursor::{Cursor, judged, marked, piece, skip, spend, whole};
use apdu::known;

// A message's choice.
pub(crate) fn choice(s: &[u8], c: Cursor) -> Cursor
    requires { length s.now ≤ 512 }
    ensures { result ≡ component s.now choice c }
{
    let p = piece(s, 4, true, c);
    judged(c, refusals::CHOICE_UNKNOWN, apdu::CHOICES <= p.value, p)
}

// A number 0..127.
pub(crate) fn integer(s: &[u8], c: Cursor) -> Cursor
    requires { length s.now ≤ 512 }
    ensures { (result ≡ component s.now integer c) × (result.value < 128) }
{
    let p = whole(s, c);
    judged(c, refusals::EXTENSION_BIT, 128 <= p.value, p)
}

// A count of ids or of application entries.
pub(crate) fn count(s: &[u8], c: Cursor) -> Cursor
    requires { length s.now ≤ 512 }
    ensures { (result ≡ component s.now id_count c) × (result ≡ component s.now entry_count c) × (result.value ≤ 16) }
{
    let d = integer(s, c);
    judged(
        c,
        refusals::COUNT_TOO_LARGE,
        apdu::MOST_COUNTED < d.value,
        d,
    )
}

// A count of attribute rows whose containers stand at the given depth.
pub(crate) fn row_count(s: &[u8], depth: usize, c: Cursor) -> Cursor
    requires { length s.now ≤ 512 }
    ensures { (result ≡ component s.now (row_count depth) c) × (result.value < 128) }
{
    let d = integer(s, c);
    let many = apdu::MOST_COUNTED < d.value || c.room < d.value;
    spend(judged(c, refusals::COUNT_TOO_LARGE, many, d))
}

// The kind of a container at the given depth.
pub(crate) fn kind(s: &[u8], depth: usize, c: Cursor) -> Cursor
    requires { length s.now ≤ 512 }
    ensures { (result ≡ component s.now (container depth) c) × (result.value < 128) }
{
    let d = integer(s, c);
    let e = judged(c, refusals::TOO_DEEP, apdu::DEEPEST < depth, d);
    judged(c, refusals::CONTAINER_KIND, !known(e.value), e)
}

// An application entry's first octet.
pub(crate) fn entry_octet(s: &[u8], c: Cursor) -> Cursor
    requires { length s.now ≤ 512 }
    ensures { (result ≡ component s.now entry c) × (result.value < 256) }
{
    let p = whole(s, c);
    judged(c, refusals::EXTENSION_BIT, p.value / 32 % 2 == 1, p)
}

// An octet string: its length is the value afterwards, and start the place of its octets.
pub(crate) fn string(s: &[u8], c: Cursor) -> Cursor
    requires { length s.now ≤ 512 }
    ensures { ReadsTo s.now (string_form ∷ []) c result (str s.now result.start result.value) × (result.value < 128) × (result.room ≡ c.room) × Inside s.now true result }
{
    let p = piece(s, 1, true, c);
    let form = judged(c, refusals::EXTENSION_BIT, p.value == 1, p);
    skip(s, piece(s, 7, false, form))
}

// A list of ids: their number is the value afterwards, and start the place of the first.
pub(crate) fn id_list(s: &[u8], c: Cursor) -> Cursor
    requires { length s.now ≤ 512 }
    ensures { ReadsTo s.now (id_count ∷ []) c result (id_list s.now result.start result.value) × (result.value < 128) × (result.room ≡ c.room) × Inside s.now true result }
{
    let d = count(s, c);
    let n = d.value;
    let mut e = d;
    for _ in 0..n {
        e = integer(s, e);
    }
    marked(e, n, d.at)
}
