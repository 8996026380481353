// Finding a pair's slot, and changing one slot.
ghost use Rattle.std.specs.Prelude.{◌≡◌, ℕ, ◌<◌, ◌≤◌, get_or, slice_index_or, slice_set};
ghost use Rattle.slots.specs.Slots.{free, holds_pair, index_of, table_of, held_for, held_in, total, held_of};

use crate::soundness::sound;
use crate::word::word;
use crate::{Slot, Table};

// Whether the slot is busy with this pair.
pub(crate) fn holds_pair(slot: Slot, lid: u32, number: u32) -> bool
    ensures { result ≡ holds_pair lid number slot }
{
    // A `return`: as one condition the test of all pairs takes all three comparisons each time.
    if slot.next == 0 {
        return false;
    }
    slot.lid == lid && slot.number == number
}

// The index of the pair's slot, or 8.
pub fn find(table: Table, lid: u32, number: u8) -> usize
    ensures { result ≡ index_of lid number table.slots }
{
    table
        .slots
        .iter()
        .position(|slot| holds_pair(*slot, lid, u32::from(number)))
        .unwrap_or(crate::SLOTS)
}

// The slot at an index, or a free one past the eight.
pub fn slot_at(table: Table, i: usize) -> Slot
    ensures { result ≡ slice_index_or table.slots i free }
{
    table.slots.get(i).copied().unwrap_or_default()
}

// The table with one slot replaced, if there is one at the index, and the word that its slots have.
pub fn with_slot(table: Table, i: usize, slot: Slot) -> Table
    ensures { result ≡ table_of (slice_set table.slots i slot) }
{
    let mut slots = table.slots;
    if i < crate::SLOTS {
        slots[i] = slot;
    }
    let busy = word(slots);
    Table { busy, slots }
}

// The octets that the table holds of a pair; 0 if it is not open.
pub fn held_for(table: Table, lid: u32, number: u8) -> usize
    ensures { result ≡ held_for table lid number }
{
    slot_at(table, find(table, lid, number)).held as usize
}

fn held_sum(slots: [Slot; 8]) -> usize
    requires { (k : ℕ) → k < 8 → (get_or slots k free).held ≤ 512 }
    ensures { result ≡ total held_of slots }
{
    slots.iter().map(|slot| slot.held as usize).sum()
}

// The octets that the table holds in all; 0 for a table that is not sound.
pub fn held_in(table: Table) -> usize
    ensures { result ≡ held_in table }
{
    if sound(table) {
        held_sum(table.slots)
    } else {
        0
    }
}
