// A fragment that no check refused: delivered if it is the last, kept otherwise.
ghost use Rattle.std.specs.Prelude.{◌≡◌};
ghost use Rattle.reassembly.specs.Accept.{DeliverAsks, DeliverGives, KeepAsks, KeepGives, AcceptAsks, AcceptGives};

use crate::copy::{copy, copy_held};
use crate::{Accepted, Arrival, Change};
use slots::Slot;

// A last fragment: the octets held and its payload go to the output, and the slot is freed.
fn deliver(
    index: usize,
    before: usize,
    dropped: usize,
    payload: &[u8],
    store: &[u8],
    output: &mut [u8],
) -> Change
    requires { DeliverAsks index before payload.now store.now output.old }
    ensures { DeliverGives index before dropped payload.now store.now output.old result output.new }
{
    let at = slots::SLOT_OCTETS * index;
    copy_held(store, at, before, output);
    copy(payload, output, before);
    let octets = before + payload.len();
    Change {
        accepted: Accepted::Whole { octets, dropped },
        slot: Slot::default(),
        index,
    }
}

// Any other fragment: its payload goes to the store behind what is held, and its slot is set.
fn keep(
    index: usize,
    slot: Slot,
    before: usize,
    dropped: usize,
    payload: &[u8],
    store: &mut [u8],
) -> Change
    requires { KeepAsks index before payload.now store.old }
    ensures { KeepGives index slot before dropped payload.now store.old result store.new }
{
    let at = slots::SLOT_OCTETS * index + before;
    copy(payload, store, at);
    let octets = before + payload.len();
    Change {
        accepted: Accepted::Held { octets, dropped },
        slot,
        index,
    }
}

// The answer to a fragment that no check refused, and the slot that it changes: its pair's, or the lowest free one to open a message.
pub(crate) fn accept(
    arrival: Arrival,
    slot: Slot,
    lowest: usize,
    payload: &[u8],
    store: &mut [u8],
    output: &mut [u8],
) -> Change
    requires { AcceptAsks arrival slot lowest payload.now store.old output.old }
    ensures { AcceptGives arrival slot lowest payload.now store.old output.old result store.new output.new }
{
    let index = arrival.index;
    let (before, dropped) = if arrival.begins {
        (0, slot.held as usize)
    } else {
        (slot.held as usize, 0)
    };
    if arrival.last {
        return deliver(index, before, dropped, payload, store, output);
    }
    let octets = before + payload.len();
    let (next, tick) = if arrival.begins {
        (1, arrival.tick)
    } else {
        (slot.next + 1, slot.tick)
    };
    let changed = Slot {
        lid: arrival.lid,
        number: arrival.number as u32,
        next,
        held: octets as u32,
        tick,
    };
    let taken = if slot.next != 0 { index } else { lowest };
    keep(taken, changed, before, dropped, payload, store)
}
