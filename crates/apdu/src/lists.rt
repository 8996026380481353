// The rows and entries that stand beside a message. Every reading clears them and hands them on, so they are small, and their fields fill their structs
// without gaps, so that an array of them is cleared and copied as one block. A start is a bit place in the lent octets.
ghost use Rattle.std.specs.Prelude.{◌≡◌, replicate, ◌-◌, ◌<◌, ◌≤◌};
ghost use Rattle.apdu.specs.Tables.{lesser};
ghost use Rattle.apdu.specs.Values.{empty_row, empty_entry, entry_rows};

// An attribute and its container: n is a string's length, an EID, or a count; a list of n rows is followed by its rows.
#[derive(Clone, Copy, Debug, Default, PartialEq, Eq)]
pub struct Row {
    pub id: u8,
    pub kind: u8,
    pub n: u16,
    pub start: u32,
}

// An application entry; kind, n and start are its parameter, and rows tells how many of the message's rows belong to it, nested ones too. The entries of
// a message have at most 32 rows together, and 23 is given above; one without a parameter has none.
#[derive(Clone, Copy, Debug, Default, PartialEq, Eq)]
pub struct Entry {
    pub has_eid: bool,
    pub has_parameter: bool,
    pub aid: u8,
    pub eid: u8,
    pub kind: u8,
    pub rows: u8,
    pub n: u16,
    pub start: u32,
}

// How many rows belong to an entry: those of its parameter, if that is there.
pub fn entry_rows(e: Entry) -> usize
    ensures { (result ≡ entry_rows e) × (result < 256) }
{
    if e.has_parameter {
        usize::from(e.rows)
    } else {
        0
    }
}

// How many of `count` places from `first` on are among 32.
pub fn clamped(first: usize, count: usize) -> usize
    ensures { (result ≡ lesser (32 - first) count) × (result ≤ 32 - first) }
{
    count.min(32usize.saturating_sub(first))
}

// The entries and rows of a message, in its order; unused ones are 0.
#[derive(Clone, Copy, Debug, PartialEq, Eq)]
pub struct Lists {
    pub entries: [Entry; 32],
    pub rows: [Row; 32],
}

// Rows of which none is used.
pub fn no_rows() -> [Row; 32]
    ensures { result ≡ replicate 32 empty_row }
{
    [Row::default(); 32]
}

// Entries of which none is used.
pub fn no_entries() -> [Entry; 32]
    ensures { result ≡ replicate 32 empty_entry }
{
    [Entry::default(); 32]
}
