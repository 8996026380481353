// The values of rows, gathered for a reply.
ghost use Rattle.std.specs.Prelude.{◌≡◌, true, false, MatchOption, ◌++◌, ◌+◌, ◌*◌, ◌≤◌, length, take, drop};
ghost use Rattle.bits.specs.Bits.{field};
ghost use Rattle.directory.specs.Directory.{area_octets, sound_directory, known_in, row_of, no_row};
ghost use Rattle.std.specs.Option.{unwrap_or};
ghost use Rattle.directory.specs.Gathered.{list_of};
ghost use Rattle.attributes.specs.Serving.{value_of};
ghost use Rattle.attributes.specs.Inside.{Gathers};

use directory::{Directory, NO_ROW, Row, find};

// The values one behind the other, with room for 16 of 127 octets, and the attributes that tell where each stands.
#[derive(Clone, Copy, Debug, PartialEq, Eq)]
pub struct Values {
    pub octets: [u8; 2032],
    pub attributes: [apdu::Row; 32],
}

// The value of a row, to `out` from `at` on.
fn put_value(row: Row, factory: &[u8], writable: &[u8], out: &mut [u8], at: usize)
    requires { (row.start + row.length ≤ area_octets (length factory.now) (length writable.now) row) × (at + row.length ≤ length out.old) }
    ensures { out.new ≡ take at out.old ++ (value_of factory.now writable.now row ++ drop (at + row.length) out.old) }
{
    let area = if row.writable { writable } else { factory };
    let part = &area[row.start..row.start + row.length];
    let _ = bits::copy_string(part, 0, row.length, out, at);
}

// The row of an id.
pub(crate) fn look_up(d: Directory, id: u16) -> Option<Row>
    requires { length (list_of d) ≤ 32 }
    ensures found { MatchOption result (known_in id (list_of d) ≡ false) (λ row. (known_in id (list_of d) ≡ true) × (row ≡ row_of id (list_of d))) }
    ensures row { unwrap_or result no_row ≡ row_of id (list_of d) }
{
    find(d, id)
}

// The row of the id at a bit place, behind its extension bit.
pub(crate) fn row_at(s: &[u8], at: usize, d: Directory) -> Option<Row>
    requires { (at ≤ 4096) × (length (list_of d) ≤ 32) }
    ensures found { let id = field s.now (at + 1) 7 in MatchOption result (known_in id (list_of d) ≡ false) (λ row. (known_in id (list_of d) ≡ true) × (row ≡ row_of id (list_of d))) }
    ensures row { unwrap_or result no_row ≡ row_of (field s.now (at + 1) 7) (list_of d) }
{
    look_up(d, bits::read_field(s, at + 1, 7) as u16)
}

// The values of the `count` rows whose ids stand from bit place `ids` on.
pub(crate) fn gather_values(
    s: &[u8],
    ids: usize,
    count: usize,
    d: Directory,
    factory: &[u8],
    writable: &[u8],
) -> Values
    requires { (count ≤ 16) × (ids + 8 * count ≤ 4096) × (sound_directory (length factory.now) (length writable.now) (list_of d) ≡ true) }
    ensures { Gathers s.now ids count (list_of d) factory.now writable.now result }
{
    let mut octets: [u8; 2032] = [0; 2032];
    let mut attributes = apdu::no_rows();
    let mut at: usize = 0;
    for i in 0..count {
        let row = row_at(s, ids + 8 * i, d).unwrap_or(NO_ROW);
        put_value(row, factory, writable, &mut octets, at);
        attributes[i] = apdu::Row {
            id: row.id,
            kind: apdu::OCTET_STRING as u8,
            n: row.length as u16,
            start: (8 * at) as u32,
        };
        at += row.length;
    }
    Values { octets, attributes }
}
