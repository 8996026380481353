// The table of slots as 41 words: the busy word, then LID, number, next counter, octets held and tick of each slot.
ghost use Rattle.std.specs.Prelude.{◌≡◌, ◌≤◌, length};
ghost use Rattle.slots.specs.Slots.{word_of};
ghost use Rattle.words.specs.TableWords.{slot_put, slot_in, slots_in, table_in, table_after, change_after};
ghost use Rattle.words.specs.TableWords.{UnpackingTable, UnpackingPutTable, UnpackingChange, OtherTableLength, FirstTable};

use crate::word::{put, word};
use slots::{Slot, Table};

pub const TABLE_WORDS: usize = 41;

const SLOT_WORDS: usize = 5;
// A busy word that no sound table has.
const NOT_SOUND: u32 = u32::MAX;

fn slot_in(words: &[u32], at: usize) -> Slot
    requires { at ≤ 36 }
    ensures { result ≡ slot_in words.now at }
{
    Slot {
        lid: word(words, at),
        number: word(words, at + 1),
        next: word(words, at + 2),
        held: word(words, at + 3),
        tick: word(words, at + 4),
    }
}

// The table that the words are; one that is not sound where there are not 41 of them.
pub fn table_in(words: &[u32]) -> Table
    ensures answer { result ≡ table_in words.now }
    ensures unpacking { UnpackingTable }
    ensures other_length { OtherTableLength }
    ensures first_state { FirstTable }
{
    if words.len() != TABLE_WORDS {
        return Table {
            busy: NOT_SOUND,
            ..slots::empty()
        };
    }
    let busy = word(words, 0);
    // Slot by slot: over `array::from_fn` the proof of its items does not close.
    let slots = [
        slot_in(words, 1),
        slot_in(words, 6),
        slot_in(words, 11),
        slot_in(words, 16),
        slot_in(words, 21),
        slot_in(words, 26),
        slot_in(words, 31),
        slot_in(words, 36),
    ];
    Table { busy, slots }
}

// Puts a slot's words from place `at` on, where they fit.
fn put_slot(words: &mut [u32], at: usize, slot: Slot)
    requires { at ≤ 36 }
    ensures { words.new ≡ slot_put words.old at slot }
{
    put(words, at, slot.lid);
    put(words, at + 1, slot.number);
    put(words, at + 2, slot.next);
    put(words, at + 3, slot.held);
    put(words, at + 4, slot.tick);
}

// Puts the table's words, where there are 41.
pub fn put_table(table: Table, words: &mut [u32])
    ensures answer { words.new ≡ table_after table words.old }
    ensures unpacking { UnpackingPutTable }
{
    if words.len() != TABLE_WORDS {
        return;
    }
    put(words, 0, table.busy);
    for (i, slot) in table.slots.iter().enumerate() {
        put_slot(words, 1 + SLOT_WORDS * i, *slot);
    }
}

// The busy word of the slots: bit i is set if the next counter of slot i is not 0.
fn busy_of(words: &[u32]) -> u32
    requires { length words.now ≡ 41 }
    ensures { result ≡ word_of (slots_in words.now) }
{
    let mut busy = 0;
    for i in (0..slots::SLOTS).rev() {
        busy = 2 * busy + u32::from(words[SLOT_WORDS * i + 3] != 0);
    }
    busy
}

// Puts one slot and the busy word that the slots then have, where there are 41 words.
pub fn put_change(i: usize, slot: Slot, words: &mut [u32])
    ensures answer { words.new ≡ change_after i slot words.old }
    ensures unpacking { UnpackingChange }
{
    if words.len() != TABLE_WORDS {
        return;
    }
    if i < slots::SLOTS {
        put_slot(words, 1 + SLOT_WORDS * i, slot);
    }
    words[0] = busy_of(words);
}
