// The checks of a fragment call, in the order of 01's table: 1 to 4, then, of a header that is valid, 6 to 12.
ghost use Rattle.std.specs.Prelude.{◌≡◌, ◌+◌, ◌&&◌, not, ◌++◌, eqb, ltb};
ghost use Rattle.refusals.specs.Check.{pick, first_of};
ghost use Rattle.refusals.specs.Refusal.{refused_by};
ghost use Rattle.slots.specs.Slots.{slot_octets};
ghost use Rattle.reassembly.specs.Asked.{fields_of, asked};
ghost use Rattle.reassembly.specs.Checks.{last_counter, lsdu_checks, header_checks, pair_checks};

use crate::{FragmentRead, PairFacts};
use refusals::Refusal;

// The refusal 1 to 4 that applies first.
pub(crate) fn check_lsdu(
    store: usize,
    output: usize,
    sound: bool,
    lid: u32,
    lsdu: usize,
) -> Result<(), Refusal>
    ensures { refused_by result ≡ first_of (lsdu_checks store output (not sound) lid lsdu) }
{
    if store != crate::STORE_OCTETS || output < crate::OUTPUT_OCTETS {
        return Err(Refusal::StoreOrOutputLength);
    }
    if !sound {
        return Err(Refusal::TableNotSound);
    }
    if !slots::lid_in_range(lid) {
        return Err(Refusal::LidOutOfRange);
    }
    if lsdu == 0 || crate::LSDU_OCTETS < lsdu {
        return Err(Refusal::LsduLength);
    }
    Ok(())
}

// Whether the sum is more than a slot holds, whatever the numbers.
fn exceeds(held: usize, payload: usize) -> bool
    ensures { result ≡ ltb slot_octets (held + payload) }
{
    slots::SLOT_OCTETS < held || slots::SLOT_OCTETS - held < payload
}

// 8: a counter above 0, and the pair is not open.
fn is_not_open(fragment: FragmentRead, facts: PairFacts) -> bool
    ensures { result ≡ (ltb 0 fragment.header.counter && not (asked facts).is_open) }
{
    0 < fragment.header.counter && facts.slot.is_none()
}

// 9: counter 0, not last, the pair is not open, and no slot is free.
fn is_out_of_slots(fragment: FragmentRead, facts: PairFacts) -> bool
    ensures { result ≡ (eqb fragment.header.counter 0 && not fragment.header.last && not (asked facts).is_open && facts.full) }
{
    fragment.header.counter == 0 && !fragment.header.last && facts.slot.is_none() && facts.full
}

// 10: the pair is open, and the counter is above 0 and not the expected one.
fn is_unexpected(fragment: FragmentRead, facts: PairFacts) -> bool
    ensures { result ≡ ((asked facts).is_open && ltb 0 fragment.header.counter && not (eqb fragment.header.counter (asked facts).expected)) }
{
    match facts.slot {
        Some(slot) => 0 < fragment.header.counter && fragment.header.counter != slot.next,
        None => false,
    }
}

// 11: the highest counter as expected, and not last.
fn is_exhausted(fragment: FragmentRead, facts: PairFacts) -> bool
    ensures { result ≡ (eqb fragment.header.counter last_counter && eqb fragment.header.counter (asked facts).expected && not fragment.header.last) }
{
    match facts.slot {
        Some(slot) => {
            fragment.header.counter == crate::LAST_COUNTER
                && fragment.header.counter == slot.next
                && !fragment.header.last
        },
        None => false,
    }
}

// 12: the octets held, none for counter 0, and the payload are more than a slot holds.
fn is_too_long(fragment: FragmentRead, facts: PairFacts) -> bool
    ensures { result ≡ ltb slot_octets (pick (eqb fragment.header.counter 0) 0 (asked facts).held + fragment.octets) }
{
    let held = match facts.slot {
        Some(slot) if fragment.header.counter != 0 => slot.held as usize,
        _ => 0,
    };
    exceeds(held, fragment.octets)
}

// The refusal 8 to 12 that applies first.
fn check_pair(fragment: FragmentRead, facts: PairFacts) -> Result<(), Refusal>
    ensures { refused_by result ≡ first_of (pair_checks (fields_of fragment) (asked facts)) }
{
    if is_not_open(fragment, facts) {
        return Err(Refusal::NotOpen);
    }
    if is_out_of_slots(fragment, facts) {
        return Err(Refusal::NoFreeSlot);
    }
    if is_unexpected(fragment, facts) {
        return Err(Refusal::CounterNotExpected);
    }
    if is_exhausted(fragment, facts) {
        return Err(Refusal::CounterExhausted);
    }
    if is_too_long(fragment, facts) {
        return Err(Refusal::MessageTooLong);
    }
    Ok(())
}

// The refusal 6 to 12 that applies first.
pub(crate) fn check_fragment(fragment: FragmentRead, facts: PairFacts) -> Result<(), Refusal>
    ensures { refused_by result ≡ first_of (header_checks (fields_of fragment) ++ pair_checks (fields_of fragment) (asked facts)) }
{
    if fragment.header.number < slots::LOWEST_NUMBER {
        return Err(Refusal::NumberReserved);
    }
    if fragment.octets == 0 {
        return Err(Refusal::NoPayload);
    }
    check_pair(fragment, facts)
}
