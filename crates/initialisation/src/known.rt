// Whether a ready tag has answered a beacon already, not long ago.
ghost use Rattle.std.specs.Prelude.{◌≡◌};
ghost use Rattle.initialisation.specs.Known.{elapsed, is_soon, is_known};

use crate::records::{Beacon, Phase};

// A ready tag is silent to its beacon up to so many seconds after the stored time.
const LONGEST_SILENCE: i64 = 254;

// Whether a time comes soon after the stored one, by their difference with its sign.
fn is_soon(time: u32, stored: u32) -> bool
    ensures { result ≡ is_soon (elapsed time stored) }
{
    let elapsed = i64::from(time) - i64::from(stored);
    matches!(elapsed, 0..=LONGEST_SILENCE)
}

// Whether the tag is ready under this beacon, and the BST's time comes soon after the stored one.
pub(crate) fn is_known(phase: Phase, stored: u32, beacon: Beacon, time: u32) -> bool
    ensures { result ≡ is_known phase stored beacon time }
{
    match phase {
        Phase::Sleeping | Phase::Looking => false,
        Phase::Ready { beacon: own, .. } => own == beacon && is_soon(time, stored),
    }
}
