// Attribute rows as words, five each: id, area (0 factory, 1 writable), start, length, and whether it is protected (0: not).
ghost use Rattle.std.specs.Prelude.{◌≡◌, ◌<◌, ◌^◌, replicate};
ghost use Rattle.directory.specs.Directory.{no_row};
ghost use Rattle.directory.specs.Gathered.{list_of};
ghost use Rattle.words.specs.RowWords.{id_in, row_at, rows_in, with_part, UnpackingRows, OtherRowsLength, LargeId, OtherArea, PartPut};

use crate::word::{narrow, narrow_word, put, word};
use directory::{Directory, Row};

const ROW_WORDS: usize = 5;

const PART_WORDS: usize = 3;
// An id that no sound directory has.
const NOT_AN_ID: u8 = 255;

// An id that is narrowed, or none in an area that is none.
#[tactic(auto, unfolding(crate::specs::RowWords::id_in))]
fn id_in(id: u32, area: u32) -> u8
    ensures { result ≡ id_in id area }
{
    if area < 2 { narrow(id) } else { NOT_AN_ID }
}

fn row_in(words: &[u32], at: usize) -> Row
    requires { at < 2 ^ 60 }
    ensures { result ≡ row_at words.now at }
{
    let area = word(words, at + 1);
    Row {
        id: id_in(word(words, at), area),
        writable: area == 1,
        start: word(words, at + 2) as usize,
        length: word(words, at + 3) as usize,
        protected: word(words, at + 4) != 0,
    }
}

// A directory that is not sound.
#[tactic(auto, unfolding(directory::specs::Gathered::list_of))]
fn not_sound() -> Directory
    ensures { list_of result ≡ replicate 33 no_row }
{
    Directory {
        count: directory::MOST_ROWS + 1,
        ..directory::empty()
    }
}

// The directory that the words are; one that is not sound where a word is left over, or there are more than 32 rows.
pub fn directory_in(words: &[u32]) -> Directory
    ensures answer { list_of result ≡ rows_in words.now }
    ensures unpacking { UnpackingRows }
    ensures other_length { OtherRowsLength }
    ensures large_id { LargeId }
    ensures other_area { OtherArea }
{
    let n = words.len() / ROW_WORDS;
    if words.len() % ROW_WORDS != 0 || directory::MOST_ROWS < n {
        return not_sound();
    }
    let mut d = directory::empty();
    for i in 0..n {
        d.rows[i] = row_in(words, ROW_WORDS * i);
    }
    d.count = n;
    d
}

// Puts a row's area, start and length to the front, where there are three words for them.
pub fn put_part(row: Row, part: &mut [u32])
    ensures answer { part.new ≡ with_part row part.old }
    ensures part { PartPut }
{
    if part.len() < PART_WORDS {
        return;
    }
    put(part, 0, u32::from(row.writable));
    put(part, 1, narrow_word(row.start as u64));
    put(part, 2, narrow_word(row.length as u64));
}
