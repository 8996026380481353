// The soundness of the tag's elements.
ghost use Rattle.std.specs.Prelude.{◌≡◌};
ghost use Rattle.initialisation.specs.Elements.{element_sound, none_has, each_sound, elements_sound};

use crate::records::{Element, Elements};

pub const MOST_ELEMENTS: usize = 8;

pub const LARGEST_EID: u8 = 127;

pub const LARGEST_AID: u8 = 31;

pub const LONGEST_MARK: u8 = 127;

// Whether an element may stand in a list, with so many octets lent.
fn element_sound(element: Element, octets: usize) -> bool
    ensures { result ≡ element_sound octets element }
{
    1 <= element.eid
        && element.eid <= LARGEST_EID
        && element.aid <= LARGEST_AID
        && element.mark_length <= LONGEST_MARK
        && bits::inside(
            octets,
            8 * (element.mark as usize),
            usize::from(element.mark_length),
        )
}

// Whether no element of the list has this eid.
fn none_has(list: &[Element], eid: u8) -> bool
    ensures { result ≡ none_has eid list.now }
{
    for element in list {
        if element.eid == eid {
            return false;
        }
    }
    true
}

fn each_sound(list: &[Element], octets: usize) -> bool
    ensures { result ≡ each_sound octets list.now }
{
    for (i, element) in list.iter().enumerate() {
        if !element_sound(*element, octets) || !none_has(&list[i + 1..], element.eid) {
            return false;
        }
    }
    true
}

// Whether the elements are sound, with so many octets lent for their marks.
pub(crate) fn elements_sound(own: Elements, octets: usize) -> bool
    ensures { result ≡ elements_sound octets own }
{
    own.count <= MOST_ELEMENTS && each_sound(&own.list[..own.count], octets)
}
