// The tag's directory of attributes (01, "Reading and setting attributes"): which part of which area an attribute is.
// The directory is a lent list of rows, or its rows by value (`Directory`), which lend the first of their array.

#![tactic(auto)]

ghost use Rattle.std.specs.Prelude.{◌≡◌, ◌+◌, ◌≤◌, ◌<◌, MatchOption, length};
ghost use Rattle.refusals.specs.Refusal.{answer_of};
ghost use Rattle.directory.specs.Directory.{area_octets, row_sound, each_sound, share_octet, clashes, apart_from, all_apart, sound_directory, first_row, finding, lookup_row, LookedUp, knowing};
ghost use Rattle.directory.specs.Gathered.{no_directory, with_row, gathered, list_of};

use refusals::Refusal;

// 01's attribute row. A start and a length count octets. The two long fields stand first, so that the only gap is behind the last one: a directory is then
// copied as one block.
#[derive(Clone, Copy, Debug, PartialEq, Eq)]
pub struct Row {
    pub start: usize,
    pub length: usize,
    pub id: u8,
    // In the writable area; else in the factory area.
    pub writable: bool,
    pub protected: bool,
}

// The rows of a directory by value; a count of 33 tells that there are more than 32.
#[derive(Clone, Copy, Debug, PartialEq, Eq)]
pub struct Directory {
    pub rows: [Row; 32],
    pub count: usize,
}

pub const MOST_ROWS: usize = 32;

pub const LARGEST_ID: u8 = 127;

pub const LONGEST_ROW: usize = 127;

// The row of an id that is not known.
pub const NO_ROW: Row = Row {
    start: 0,
    length: 0,
    id: 0,
    writable: false,
    protected: false,
};

// ---- soundness

// How many octets the row's area has.
fn area_octets(row: Row, factory: usize, writable: usize) -> usize
    ensures { result ≡ area_octets factory writable row }
{
    if row.writable { writable } else { factory }
}

#[tactic(auto, unfolding(crate::specs::Directory::row_sound))]
fn row_sound(row: Row, factory: usize, writable: usize) -> bool
    ensures { result ≡ row_sound factory writable row }
{
    let area = area_octets(row, factory, writable);
    row.id <= LARGEST_ID
        && row.length <= LONGEST_ROW
        && row.length <= area
        && row.start <= area - row.length
}

#[tactic(auto, unfolding(crate::specs::Directory::share_octet))]
fn share_octet(a: Row, b: Row) -> bool
    ensures { result ≡ share_octet a b }
{
    if a.writable != b.writable || a.length == 0 || b.length == 0 {
        return false;
    }
    // A `return`: an `else` here made the test of all pairs a third dearer.
    if a.start <= b.start {
        return b.start - a.start < a.length;
    }
    a.start - b.start < b.length
}

#[tactic(auto, unfolding(crate::specs::Directory::clashes))]
fn clash(a: Row, b: Row) -> bool
    ensures { result ≡ clashes a b }
{
    a.id == b.id || share_octet(a, b)
}

fn each_sound(rows: &[Row], factory: usize, writable: usize) -> bool
    ensures { result ≡ each_sound factory writable rows.now }
{
    rows.iter().all(|row| row_sound(*row, factory, writable))
}

fn apart_from(row: Row, others: &[Row]) -> bool
    ensures { result ≡ apart_from row others.now }
{
    !others.iter().any(|other| clash(row, *other))
}

// At most 32 rows, so at most 496 pairs.
#[tactic(auto, unfolding(crate::specs::Directory::all_apart))]
fn all_apart(rows: &[Row]) -> bool
    ensures { result ≡ all_apart rows.now }
{
    let mut left = rows;
    while let Some((row, others)) = left.split_first() {
        if !apart_from(*row, others) {
            return false;
        }
        left = others;
    }
    true
}

#[tactic(auto, unfolding(crate::specs::Directory::sound_directory))]
fn list_sound(rows: &[Row], factory: usize, writable: usize) -> bool
    ensures { result ≡ sound_directory factory writable rows.now }
{
    rows.len() <= MOST_ROWS && each_sound(rows, factory, writable) && all_apart(rows)
}

// The first rows of an array, as many as the count says; none where it says more than 32.
fn listed(rows: &[Row; 32], count: usize) -> Option<&[Row]>
    ensures { MatchOption result (32 < count) (λ list. (length list.now ≤ 32) × (list.now ≡ list_of (record { rows = rows.now; count = count }))) }
{
    rows.get(..count)
}

// Whether the directory is sound for areas of so many octets (26).
pub fn sound_in(d: Directory, factory: usize, writable: usize) -> bool
    ensures { result ≡ sound_directory factory writable (list_of d) }
{
    match listed(&d.rows, d.count) {
        Some(rows) => list_sound(rows, factory, writable),
        None => false,
    }
}

// ---- looking up

fn first_row(rows: &[Row], id: u16) -> Option<Row>
    ensures { result ≡ first_row rows.now id }
{
    rows.iter().find(|row| u16::from(row.id) == id).copied()
}

// The first row with the id; in a directory of more than 32 rows none is found.
pub fn find(d: Directory, id: u16) -> Option<Row>
    ensures { result ≡ finding (list_of d) id }
{
    first_row(listed(&d.rows, d.count)?, id)
}

fn row_in(rows: &[Row], factory: usize, writable: usize, id: u8) -> Row
    ensures row { result ≡ lookup_row factory writable rows.now id }
    ensures inside { result.start + result.length ≤ area_octets factory writable result }
{
    if !list_sound(rows, factory, writable) {
        return NO_ROW;
    }
    first_row(rows, u16::from(id)).unwrap_or(NO_ROW)
}

// The row whose part lookup gives.
pub fn row_for(d: Directory, factory: usize, writable: usize, id: u8) -> Row
    ensures { (result ≡ lookup_row factory writable (list_of d) id) × (result.start + result.length ≤ area_octets factory writable result) }
{
    match listed(&d.rows, d.count) {
        Some(rows) => row_in(rows, factory, writable, id),
        None => NO_ROW,
    }
}

// ---- the lent rows

pub fn empty() -> Directory
    ensures { result ≡ no_directory }
{
    Directory {
        rows: [NO_ROW; 32],
        count: 0,
    }
}

// The directory with one row more; where it holds 32 already, its count is 33 and its rows stay.
#[tactic(auto, unfolding(crate::specs::Gathered::with_row))]
pub fn with_row(mut d: Directory, row: Row) -> Directory
    ensures { result ≡ with_row d row }
{
    if d.count < MOST_ROWS {
        d.rows[d.count] = row;
        d.count += 1;
    } else {
        d.count = MOST_ROWS + 1;
    }
    d
}

// The lent rows, by value.
pub fn gather(rows: &[Row]) -> Directory
    ensures { result ≡ gathered rows.now }
{
    let kept = rows.len().min(MOST_ROWS);
    let mut list = [NO_ROW; 32];
    for i in 0..kept {
        list[i] = rows[i];
    }
    Directory {
        rows: list,
        count: rows.len().min(MOST_ROWS + 1),
    }
}

// The attribute's part of the factory area or of the writable area itself; for an unknown id, or a directory that is not sound, the empty part
// at the factory area's front.
pub fn lookup<'r, 'a>(rows: &'r [Row], factory: &'a [u8], writable: &'a [u8], id: u8) -> &'a [u8]
    ensures { LookedUp rows.now factory.entry writable.entry id result }
{
    let row = row_in(rows, factory.len(), writable.len(), id);
    let area = if row.writable { writable } else { factory };
    &area[row.start..row.start + row.length]
}

// 26 for a directory that is not sound, else whether the id is known.
pub fn knows(rows: &[Row], factory: usize, writable: usize, id: u8) -> Result<bool, Refusal>
    ensures { answer_of result ≡ knowing factory writable rows.now id }
{
    if !list_sound(rows, factory, writable) {
        return Err(Refusal::ListNotSound);
    }
    Ok(first_row(rows, u16::from(id)).is_some())
}

// ---- the first rows of an array, lent

// The lookup among the first `count` rows; for a count above 32, the empty part at the factory area's front.
pub fn lookup_among<'a>(
    rows: [Row; 32],
    count: usize,
    factory: &'a [u8],
    writable: &'a [u8],
    id: u8,
) -> &'a [u8]
    ensures { LookedUp (list_of (record { rows = rows; count = count })) factory.entry writable.entry id result }
{
    match listed(&rows, count) {
        Some(rows) => lookup(rows, factory, writable, id),
        None => &factory[..0],
    }
}

// The second call on the first `count` rows; 26 for a count above 32.
pub fn knows_among(
    rows: [Row; 32],
    count: usize,
    factory: usize,
    writable: usize,
    id: u8,
) -> Result<bool, Refusal>
    ensures { answer_of result ≡ knowing factory writable (list_of (record { rows = rows; count = count })) id }
{
    match listed(&rows, count) {
        Some(rows) => knows(rows, factory, writable, id),
        None => Err(Refusal::ListNotSound),
    }
}
