// The quill: a place in the output, by value. Once a value is out of range it stays so, and nothing more is written.
ghost use Rattle.std.specs.Prelude.{◌≡◌, ◌&&◌, ◌+◌, ◌*◌, ◌<◌, ◌≤◌, length};
ghost use Rattle.bits.specs.Bits.{write_field};
ghost use Rattle.bits.specs.Strings.{is_inside, write_string};
ghost use Rattle.apdu_writing.specs.Quill.{least, Put, spent};

// at: the next octet, or FAR for any place from there on; room: how many attribute rows may still be announced; ok: whether all so far is in range.
// The fields leave no gap, so that a quill is copied as one word.
#[derive(Clone, Copy, Debug, PartialEq, Eq)]
pub struct Quill {
    pub at: u16,
    pub room: u8,
    pub ok: bool,
}

// No message that is written reaches this place.
pub(crate) const FAR: usize = 4096;

fn beyond(at: u16, octets: usize) -> u16
    requires { octets ≤ 128 }
    ensures { result ≡ least (at + octets) }
{
    (at as usize + octets).min(FAR) as u16
}

// Writes the so many low octets of `v` where they fit, if `fine`.
pub(crate) fn put(out: &mut [u8], octets: usize, v: u64, fine: bool, c: Quill) -> Quill
    requires { octets ≤ 6 }
    ensures { Put octets fine c result (write_field out.old (8 * c.at) (8 * octets) v) out.old out.new }
{
    if !c.ok {
        return c;
    }
    if !fine {
        return Quill { ok: false, ..c };
    }
    let w = bits::write_field(out, 8 * (c.at as usize), 8 * octets, v);
    Quill {
        at: beyond(c.at, octets),
        ..c
    }
}

// Writes the `n` octets from bit place `start` of `lent` where they fit, if `fine` and they are inside.
pub(crate) fn put_octets(
    lent: &[u8],
    start: usize,
    n: usize,
    fine: bool,
    out: &mut [u8],
    c: Quill,
) -> Quill
    requires { n < 128 }
    ensures { Put n (fine && is_inside (length lent.now) start n) c result (write_string lent.now start n out.old (8 * c.at)) out.old out.new }
{
    if !c.ok {
        return c;
    }
    // Speed: `&` of plain tests needs no jump.
    let whole = fine & bits::inside(lent.len(), start, n);
    if !whole {
        return Quill { ok: false, ..c };
    }
    let w = bits::write_string(lent, start, n, out, 8 * (c.at as usize));
    Quill {
        at: beyond(c.at, n),
        ..c
    }
}

// The quill behind a count of n rows: that many fewer may be announced.
pub(crate) fn spend(n: u64, c: Quill) -> Quill
    ensures { result ≡ spent n c }
{
    Quill {
        room: (c.room as u64).saturating_sub(n) as u8,
        ..c
    }
}
