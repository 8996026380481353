// Release and tick calls: they change the phase only.
ghost use Rattle.std.specs.Prelude.{◌≡◌};
ghost use Rattle.initialisation.specs.Link.{lid_in_range, ready_in_range, link_in_range, is_ready_under, is_asleep, ReleaseGives, TickGives};

use crate::records::{Beacon, Link, Phase};
use refusals::Refusal;

// A LID is below this bound.
pub const LID_BOUND: u32 = 268435456;
// The bounds of a beacon's 16 and 27 bits.
pub const MANUFACTURER_BOUND: u64 = 65536;

pub const INDIVIDUAL_BOUND: u64 = 134217728;
// After so many ticks without a BST a tag sleeps.
pub const AWAKE_TICKS: u32 = 100;

pub(crate) fn lid_in_range(lid: u32) -> bool
    ensures { result ≡ lid_in_range lid }
{
    lid < LID_BOUND
}

fn ready_in_range(beacon: Beacon, lid: u32) -> bool
    ensures { result ≡ ready_in_range beacon lid }
{
    beacon.manufacturer < MANUFACTURER_BOUND
        && beacon.individual < INDIVIDUAL_BOUND
        && lid_in_range(lid)
}

pub(crate) fn link_in_range(link: Link) -> bool
    ensures { result ≡ link_in_range link }
{
    match link.phase {
        Phase::Sleeping | Phase::Looking => true,
        Phase::Ready { beacon, lid } => ready_in_range(beacon, lid),
    }
}

fn is_ready_under(phase: Phase, lid: u32) -> bool
    ensures { result ≡ is_ready_under lid phase }
{
    match phase {
        Phase::Sleeping | Phase::Looking => false,
        Phase::Ready { lid: own, .. } => own == lid,
    }
}

// Whether a tag that was last awake at one tick sleeps at another: ticks count modulo 2^32.
fn is_asleep(tick: u32, last: u32) -> bool
    ensures { result ≡ is_asleep tick last }
{
    AWAKE_TICKS <= tick.wrapping_sub(last)
}

// Release of the link's LID: the tag is looking again. Refused 3, 23, or 25 where it is not ready under this LID; a refusal changes nothing.
pub fn release(link: &mut Link, lid: u32) -> Result<(), Refusal>
    ensures { ReleaseGives lid link.old result link.new }
{
    if !lid_in_range(lid) {
        return Err(Refusal::LidOutOfRange);
    }
    if !link_in_range(*link) {
        return Err(Refusal::RecordOutOfRange);
    }
    if !is_ready_under(link.phase, lid) {
        return Err(Refusal::LinkNotReady);
    }
    link.phase = Phase::Looking;
    Ok(())
}

// A tick passes: a tag that heard no BST for 100 ticks sleeps. Refused 23; a refusal changes nothing.
pub fn tick(link: &mut Link, now: u32) -> Result<(), Refusal>
    ensures { TickGives now link.old result link.new }
{
    if !link_in_range(*link) {
        return Err(Refusal::RecordOutOfRange);
    }
    if is_asleep(now, link.tick) {
        link.phase = Phase::Sleeping;
    }
    Ok(())
}
