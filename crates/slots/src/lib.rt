// The table of slots that reassembly keeps: soundness, the busy word, lookup, expiry and release. (01 calls reassembly
// joining, a slot a place, and the PDU number a message number.)

#![tactic(auto)]

mod lookup;
mod soundness;
mod sweep;
mod word;

ghost use Rattle.std.specs.Prelude.{◌≡◌};
ghost use Rattle.slots.specs.Slots.{free, empty_table};

// The number of slots, and the octets of the store that each has.
pub const SLOTS: usize = 8;

pub const SLOT_OCTETS: usize = 512;
// A LID is below this bound, a PDU number between these two.
pub const LID_BOUND: u32 = 268435456;

pub const LOWEST_NUMBER: u8 = 2;

pub const HIGHEST_NUMBER: u8 = 15;

// One place of 01's table. A free slot is all zero. Each field has 32 bits, in the order of the words that hold a table outside (the crate `words`), so that a
// table goes in and out as one block.
#[derive(Clone, Copy, Debug, Default, PartialEq, Eq)]
pub struct Slot {
    pub lid: u32,
    pub number: u32,
    // The counter that is expected next: as many as there were fragments.
    pub next: u32,
    pub held: u32,
    // The tick of opening.
    pub tick: u32,
}

#[derive(Clone, Copy, Debug, PartialEq, Eq)]
pub struct Table {
    // Bit i tells whether slot i is taken.
    pub busy: u32,
    pub slots: [Slot; 8],
}

// A slot that holds nothing: all zero.
pub fn free_slot() -> Slot
    ensures { result ≡ free }
{
    Slot::default()
}

// The table in which every slot is free.
pub fn empty() -> Table
    ensures { result ≡ empty_table }
{
    Table {
        busy: 0,
        slots: [Slot::default(); 8],
    }
}

pub use lookup::{find, held_for, held_in, slot_at, with_slot};
pub use soundness::{lid_in_range, sound};
pub use sweep::{expire, release};
pub use word::{busy_slots, is_full, lowest_free};
