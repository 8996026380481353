// The cursor: a place in the message's bits, by value. Once a fault is set it stays as it is, so that a message is read straight through.
ghost use Rattle.std.specs.Prelude.{◌≡◌, true, ◌+◌, ◌^◌, ◌<◌, ◌≤◌, length};
ghost use Rattle.apdu_reading.specs.Cursor.{cursor, judged_by, piece_of, spent, marked_at, skipped};

// at: the next bit; begun: where the component begins that was read last; room: how many attribute rows may still be announced; fault: 0, or the
// refusal's number, with its position; value: what the bits read last say; start: where the string or list read last starts.
// In this order no two neighbours are only copied: two that are get copied as one block, which waits for both to be stored.
#[derive(Clone, Copy, Debug, Default, PartialEq, Eq)]
pub struct Cursor {
    pub at: usize,
    pub value: u64,
    pub begun: usize,
    pub start: usize,
    pub room: u64,
    pub fault: u8,
    pub position: usize,
}

// The cursor with a fault: nothing is said behind it.
pub(crate) fn faulty(c: Cursor, number: u8, position: usize) -> Cursor
    ensures { result ≡ cursor c.at c.begun c.room number position 0 0 }
{
    Cursor {
        fault: number,
        position,
        value: 0,
        start: 0,
        ..c
    }
}

// The cursor d, or the refusal of the component that begins at d.begun if a check holds; c is the cursor before it.
pub(crate) fn judged(c: Cursor, number: u8, wrong: bool, d: Cursor) -> Cursor
    ensures { result ≡ judged_by c number wrong d }
{
    // A return for each way: with the tests joined by `&&`, reading is up to half as slow again.
    if d.fault != 0 {
        return d;
    }
    if wrong {
        return faulty(c, number, d.begun / 8);
    }
    d
}

// The cursor behind `width` bits that say `value`, of a component that begins at `begun`.
fn moved(c: Cursor, width: usize, begun: usize, value: u64) -> Cursor
    requires { c.at + width < 2 ^ 64 }
    ensures { result ≡ cursor (c.at + width) begun c.room 0 0 value 0 }
{
    Cursor {
        at: c.at + width,
        begun,
        room: c.room,
        value,
        ..Cursor::default()
    }
}

// The cursor behind the next bits, with the number that they are; 13 if they are not all there.
pub(crate) fn piece(s: &[u8], width: usize, begins: bool, c: Cursor) -> Cursor
    requires { length s.now ≤ 512 }
    ensures { (result ≡ piece_of s.now width begins c) × (result.value < 2 ^ width) }
{
    let at = c.at;
    let end = s.len() * 8;
    if c.fault != 0 {
        return faulty(c, c.fault, c.position);
    }
    // Returns of their own here too, as in `judged`.
    if end < at {
        return faulty(c, refusals::CUT_SHORT, s.len());
    }
    if end - at < width {
        return faulty(c, refusals::CUT_SHORT, s.len());
    }
    let value = bits::read_field(s, at, width);
    if begins {
        return moved(c, width, at, value);
    }
    moved(c, width, c.begun, value)
}

// The cursor behind the next eight bits, of a component that begins here: they lie in one octet or in two.
// `piece` would read them too, by a window for any width, which is too large to be inlined.
pub(crate) fn whole(s: &[u8], c: Cursor) -> Cursor
    requires { length s.now ≤ 512 }
    ensures { (result ≡ piece_of s.now 8 true c) × (result.value < 256) }
{
    let at = c.at;
    if c.fault != 0 {
        return faulty(c, c.fault, c.position);
    }
    let i = at / 8;
    let skip = at % 8;
    if s.len() <= i + (skip + 7) / 8 {
        return faulty(c, refusals::CUT_SHORT, s.len());
    }
    if skip == 0 {
        return moved(c, 8, at, u64::from(s[i]));
    }
    let two = u64::from(s[i]) * 256 + u64::from(s[i + 1]);
    moved(c, 8, at, (two >> (8 - skip)) % 256)
}

// The cursor behind a count of rows: that many fewer may be announced.
pub(crate) fn spend(c: Cursor) -> Cursor
    ensures { result ≡ spent c }
{
    // Returns of their own here too, as in `judged`.
    if c.fault != 0 {
        return c;
    }
    if c.room < c.value {
        return c;
    }
    Cursor {
        room: c.room - c.value,
        ..c
    }
}

// The cursor with the number and the start of a string or list that it has passed.
pub(crate) fn marked(c: Cursor, value: u64, start: usize) -> Cursor
    ensures { result ≡ marked_at c value start }
{
    Cursor { value, start, ..c }
}

// The cursor behind the octets of a string, of which its value says how many: they start here, and none is read. 13 if they are not all there.
pub(crate) fn skip(s: &[u8], c: Cursor) -> Cursor
    requires { length s.now ≤ 512 }
    ensures { result ≡ skipped s.now c }
{
    let n = c.value;
    if c.fault != 0 {
        return marked(c, n, c.at);
    }
    if !bits::inside(s.len(), c.at, n as usize) {
        return marked(faulty(c, refusals::CUT_SHORT, s.len()), n, c.at);
    }
    marked(moved(c, 8 * (n as usize), c.begun, n), n, c.at)
}
