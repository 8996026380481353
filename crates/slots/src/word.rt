// The word of busy bits, and the two counts over it.
ghost use Rattle.std.specs.Prelude.{◌≡◌, ◌-◌};
ghost use Rattle.slots.specs.Slots.{word_of, busy_count, is_full, lowest_free};

use crate::{Slot, Table};

// The number of busy slots.
pub fn busy_slots(table: Table) -> u32
    ensures { result ≡ busy_count table }
{
    u32::count_ones(table.busy)
}

// Whether none of the eight slots is free.
pub fn is_full(table: Table) -> bool
    ensures { result ≡ is_full table }
{
    crate::SLOTS <= busy_slots(table) as usize
}

// The lowest free slot; 8 or more if none of the eight is free.
pub fn lowest_free(table: Table) -> usize
    ensures { result ≡ lowest_free table }
{
    u32::trailing_zeros(!table.busy) as usize
}

// The word of these slots: bit i is set if slot i is not free.
pub(crate) fn word(slots: [Slot; 8]) -> u32
    ensures { result ≡ word_of slots }
{
    let mut w: u32 = 0;
    for slot in slots.iter().rev() {
        w = 2 * w + u32::from(slot.next != 0);
    }
    w
}
