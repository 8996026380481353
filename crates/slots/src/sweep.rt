// Expiry and release: the slots that a test picks are freed, and their octets reported.
ghost use Rattle.std.specs.Prelude.{◌≡◌};
ghost use Rattle.slots.specs.Slots.{table_of};
ghost use Rattle.slots.specs.Sweep.{age_of, aged_slot, of_lid, freed, dropped_by, ExpiryGives, ReleaseGives};
ghost use Rattle.slots.specs.Model.{picks};

use crate::soundness::{lid_in_range, sound};
use crate::word::word;
use crate::{Slot, Table};
use refusals::Refusal;

// Which slots go: those of an age, or those of a LID. A value and no closure, since the contracts below name the test.
#[derive(Clone, Copy, Debug, PartialEq, Eq)]
pub(crate) enum Sweep {
    Aged { tick: u32, limit: u32 },
    OfLid(u32),
}

// The ticks since opening, modulo 2^32.
fn age(tick: u32, opened: u32) -> u32
    ensures { result ≡ age_of tick opened }
{
    tick.wrapping_sub(opened)
}

fn aged(slot: Slot, tick: u32, limit: u32) -> bool
    ensures { result ≡ aged_slot tick limit slot }
{
    slot.next != 0 && limit <= age(tick, slot.tick)
}

fn of_lid(slot: Slot, lid: u32) -> bool
    ensures { result ≡ of_lid lid slot }
{
    slot.next != 0 && slot.lid == lid
}

fn picked(sweep: Sweep, slot: Slot) -> bool
    ensures { result ≡ picks sweep slot }
{
    match sweep {
        Sweep::Aged { tick, limit } => aged(slot, tick, limit),
        Sweep::OfLid(lid) => of_lid(slot, lid),
    }
}

// Frees the slots that the sweep picks, and counts their octets.
fn free_picked(slots: &mut [Slot; 8], sweep: Sweep) -> usize
    ensures freed { slots.new ≡ freed (picks sweep) slots.old }
    ensures dropped { result ≡ dropped_by (picks sweep) slots.old }
{
    let mut dropped: usize = 0;
    for slot in slots.iter_mut() {
        if picked(sweep, *slot) {
            dropped += slot.held as usize;
            *slot = Slot::default();
        }
    }
    dropped
}

// The table after a sweep, and the octets dropped.
fn swept(table: &mut Table, sweep: Sweep) -> usize
    ensures table { table.new ≡ table_of (freed (picks sweep) table.old.slots) }
    ensures dropped { result ≡ dropped_by (picks sweep) table.old.slots }
{
    let dropped = free_picked(&mut table.slots, sweep);
    table.busy = word(table.slots);
    dropped
}

// Frees each slot whose age is at least the limit, and answers the octets dropped. Refused 2 for a table that is not sound.
pub fn expire(table: &mut Table, tick: u32, limit: u32) -> Result<usize, Refusal>
    ensures { ExpiryGives tick limit table.old result table.new }
{
    if !sound(*table) {
        return Err(Refusal::TableNotSound);
    }
    Ok(swept(table, Sweep::Aged { tick, limit }))
}

// Frees all slots of one LID, and answers the octets dropped. Refused 2 for a table that is not sound, then 3 for a LID out of range.
pub fn release(table: &mut Table, lid: u32) -> Result<usize, Refusal>
    ensures { ReleaseGives lid table.old result table.new }
{
    if !sound(*table) {
        return Err(Refusal::TableNotSound);
    }
    if !lid_in_range(lid) {
        return Err(Refusal::LidOutOfRange);
    }
    Ok(swept(table, Sweep::OfLid(lid)))
}
