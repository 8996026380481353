// What a BST offers that the tag takes: a profile, and the first pair of an offered application and an element of its own.
ghost use Rattle.std.specs.Prelude.{◌≡◌, ◌+◌, ◌*◌, ◌≤◌, true, length};
ghost use Rattle.bits.specs.Bits.{field};
ghost use Rattle.bits.specs.Strings.{is_inside};
ghost use Rattle.initialisation.specs.Elements.{own_elements};
ghost use Rattle.initialisation.specs.Offer.{offered_by, pair_of, profile_of};
ghost use Rattle.initialisation.specs.Searching.{Counts};

use crate::records::{Element, Elements};
use apdu::{Bst, Entry};

// The profiles that a tag serves are those up to this one.
pub const LARGEST_PROFILE: u64 = 1;
// The entries that stand beside a BST.
const ENTRIES: u64 = 32;

// ---- the profile

// Profile `i` of the list that stands in `lent` from bit place `start` on.
fn listed(lent: &[u8], start: usize, i: usize) -> u64
    requires { start + 8 * (i + 1) ≤ 8 * length lent.now }
    ensures { result ≡ field lent.now (start + 8 * i) 8 }
{
    let first = start / 8 + i;
    bits::read_field(&lent[first..], start % 8, 8)
}

// The BST's profile if it is served, else the first such in its list.
pub(crate) fn take_profile(bst: Bst, lent: &[u8]) -> Option<u64>
    requires { is_inside (length lent.now) bst.profiles bst.profile_count ≡ true }
    ensures { result ≡ profile_of lent.now bst }
{
    let own = bst.profile;
    if own <= LARGEST_PROFILE {
        return Some(own);
    }
    let start = bst.profiles;
    let n = bst.profile_count as usize;
    for i in 0..n {
        let next = listed(lent, start, i);
        if next <= LARGEST_PROFILE {
            return Some(next);
        }
    }
    None
}

// ---- the pair

// How many of the entries beside a BST are offered: the mandatory applications, and behind them the others if they are there.
fn offered(bst: Bst) -> usize
    ensures { Counts bst result }
{
    let others = if bst.has_others { bst.others } else { 0 };
    bst.mandatory.saturating_add(others).min(ENTRIES) as usize
}

// The element of the first pair with equal AID.
pub(crate) fn take_pair(bst: Bst, entries: [Entry; 32], own: Elements) -> Option<Element>
    requires { own.count ≤ 8 }
    ensures { result ≡ pair_of (offered_by bst entries) (own_elements own) }
{
    let offered = &entries[..offered(bst)];
    let list = &own.list[..own.count];
    let mut taken = None;
    'search: for entry in offered {
        for element in list {
            if element.aid == entry.aid {
                taken = Some(*element);
                break 'search;
            }
        }
    }
    taken
}
