// Whether a table is sound: its word agrees, each slot is sound by itself, and no two busy ones share LID and number.
ghost use Rattle.std.specs.Prelude.{◌≡◌};
ghost use Rattle.slots.specs.Slots.{lid_in_range, busy_sound, is_sound};
ghost use Rattle.slots.specs.Model.{sound_slot, all_sound, both_hold, alone, distinct};

use crate::lookup::holds_pair;
use crate::word::word;
use crate::{Slot, Table};

// Whether a LID is one that a slot may hold.
pub fn lid_in_range(lid: u32) -> bool
    ensures { result ≡ lid_in_range lid }
{
    lid < crate::LID_BOUND
}

fn busy_sound(slot: Slot) -> bool
    ensures { result ≡ busy_sound slot }
{
    1 <= slot.next
        && slot.next <= slot.held
        && slot.held as usize <= crate::SLOT_OCTETS
        && lid_in_range(slot.lid)
        && u32::from(crate::LOWEST_NUMBER) <= slot.number
        && slot.number <= u32::from(crate::HIGHEST_NUMBER)
}

fn sound_slot(slot: Slot) -> bool
    ensures { result ≡ sound_slot slot }
{
    if slot.next != 0 {
        busy_sound(slot)
    } else {
        slot == Slot::default()
    }
}

// Each slot is sound by itself.
fn each_sound(slots: [Slot; 8]) -> bool
    ensures { result ≡ all_sound slots }
{
    slots.iter().all(|slot| sound_slot(*slot))
}

// Whether two slots are busy with the same pair.
fn share_pair(slot: Slot, other: Slot) -> bool
    ensures { result ≡ both_hold slot other }
{
    slot.next != 0 && holds_pair(other, slot.lid, slot.number)
}

// No slot of a list shares a pair with this one.
fn is_alone(slot: Slot, slots: &[Slot]) -> bool
    ensures { result ≡ alone slot slots.now }
{
    !slots.iter().any(|other| share_pair(slot, *other))
}

// No two busy slots share a pair.
fn pairs_differ(slots: [Slot; 8]) -> bool
    ensures { result ≡ distinct slots }
{
    for (i, slot) in slots.iter().enumerate() {
        if !is_alone(*slot, &slots[i + 1..]) {
            return false;
        }
    }
    true
}

// Whether the table is sound.
pub fn sound(table: Table) -> bool
    ensures { result ≡ is_sound table }
{
    table.busy == word(table.slots) && each_sound(table.slots) && pairs_differ(table.slots)
}
