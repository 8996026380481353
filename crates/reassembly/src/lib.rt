// Reassembly of fragments into messages (01 calls it joining, a slot a place, and the PDU number a message number). The table of
// slots is lent, with a store of 4,096 octets, 512 for each slot in order.

#![tactic(auto)]

mod accept;
mod checks;
mod copy;
mod fragment_call;

use header::Header;
use slots::Slot;

// The limits of a call; those of the slots are in the crate `slots`.
pub const STORE_OCTETS: usize = 4096;

pub const OUTPUT_OCTETS: usize = 512;

pub const LSDU_OCTETS: usize = 128;

pub const LAST_COUNTER: u32 = 65535;

// What a fragment that is not refused is answered: the octets now held of the message, or those delivered, with the octets dropped of
// an older message of the pair.
#[derive(Clone, Copy, Debug, PartialEq, Eq)]
pub enum Accepted {
    Held { octets: usize, dropped: usize },
    Whole { octets: usize, dropped: usize },
}

// What the checks ask of a fragment: its header, and the octets of its payload.
#[derive(Clone, Copy, Debug, PartialEq, Eq)]
pub(crate) struct FragmentRead {
    pub header: Header,
    pub octets: usize,
}

// What the checks ask of its pair: its slot if it is open; and whether no slot is free.
#[derive(Clone, Copy, Debug, PartialEq, Eq)]
pub(crate) struct PairFacts {
    pub slot: Option<Slot>,
    pub full: bool,
}

// A fragment that no check refused, with the index of its pair's slot.
#[derive(Clone, Copy, Debug, PartialEq, Eq)]
pub(crate) struct Arrival {
    pub index: usize,
    pub lid: u32,
    pub tick: u32,
    pub number: u8,
    pub last: bool,
    pub begins: bool,
}

// What a fragment is answered, and the one slot that it changes: what it is then, and its index, which may be past the eight.
#[derive(Clone, Copy, Debug, PartialEq, Eq)]
pub struct Change {
    pub accepted: Accepted,
    pub slot: Slot,
    pub index: usize,
}

pub use fragment_call::{fragment, fragment_change};
pub use slots::{empty, expire, held_for, held_in, release};
