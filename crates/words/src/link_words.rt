// The link as six words: phase (0 sleeping, 1 looking, 2 ready), manufacturer, individual, LID, time, tick.
ghost use Rattle.std.specs.Prelude.{◌≡◌};
ghost use Rattle.words.specs.LinkWords.{with_link, phase_in, link_in};
ghost use Rattle.words.specs.LinkWords.{UnpackingLink, UnpackingPutLink, OtherLinkLength, OtherPhase, FirstLink};

use crate::word::{narrow_word, put, word};
use initialisation::{Beacon, Link, Phase};

pub const LINK_WORDS: usize = 6;

const SLEEPING: u32 = 0;

const LOOKING: u32 = 1;

const READY: u32 = 2;
// A LID that no ready link has.
const NOT_IN_RANGE: u32 = u32::MAX;

const NO_BEACON: Beacon = Beacon {
    manufacturer: 0,
    individual: 0,
};

const NO_PHASE: Phase = Phase::Ready {
    beacon: NO_BEACON,
    lid: NOT_IN_RANGE,
};

#[tactic(auto, unfolding(crate::specs::LinkWords::phase_in, crate::specs::LinkWords::phase_numbered))]
fn phase_in(words: &[u32]) -> Phase
    ensures { result ≡ phase_in words.now }
{
    if words.len() != LINK_WORDS {
        return NO_PHASE;
    }
    match word(words, 0) {
        SLEEPING => Phase::Sleeping,
        LOOKING => Phase::Looking,
        READY => Phase::Ready {
            beacon: Beacon {
                manufacturer: u64::from(word(words, 1)),
                individual: u64::from(word(words, 2)),
            },
            lid: word(words, 3),
        },
        _ => NO_PHASE,
    }
}

// The link that the words are; one out of range where there are not six of them, or the phase is no phase.
pub fn link_in(words: &[u32]) -> Link
    ensures answer { result ≡ link_in words.now }
    ensures unpacking { UnpackingLink }
    ensures other_length { OtherLinkLength }
    ensures other_phase { OtherPhase }
    ensures first_state { FirstLink }
{
    Link {
        time: word(words, 4),
        tick: word(words, 5),
        phase: phase_in(words),
    }
}

// Puts the link's words, where there are six; what its phase does not have is 0.
pub fn put_link(link: Link, words: &mut [u32])
    ensures answer { words.new ≡ with_link link words.old }
    ensures unpacking { UnpackingPutLink }
{
    if words.len() != LINK_WORDS {
        return;
    }
    let (phase, beacon, lid) = match link.phase {
        Phase::Sleeping => (SLEEPING, NO_BEACON, 0),
        Phase::Looking => (LOOKING, NO_BEACON, 0),
        Phase::Ready { beacon, lid } => (READY, beacon, lid),
    };
    // One by one: through an array a tick call takes twice its time.
    put(words, 0, phase);
    put(words, 1, narrow_word(beacon.manufacturer));
    put(words, 2, narrow_word(beacon.individual));
    put(words, 3, lid);
    put(words, 4, link.time);
    put(words, 5, link.tick);
}
