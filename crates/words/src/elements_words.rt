// Elements as words, four each: eid, AID, and where the mark starts and how many octets it has.
ghost use Rattle.std.specs.Prelude.{◌≡◌, ◌≤◌};
ghost use Rattle.words.specs.ElementWords.{element_at, element_count, elements_in, UnpackingElements, OtherElementsLength, LargeElement};

use crate::word::{narrow, word};
use initialisation::{Element, Elements};
use std::array;

const ELEMENT_WORDS: usize = 4;

const MOST_ELEMENTS: usize = 8;

fn element_in(words: &[u32], at: usize) -> Element
    requires { at ≤ 28 }
    ensures { result ≡ element_at words.now at }
{
    Element {
        eid: narrow(word(words, at)),
        aid: narrow(word(words, at + 1)),
        mark: word(words, at + 2),
        mark_length: narrow(word(words, at + 3)),
    }
}

// How many elements there are; 9, which no call takes, where there are more than 8 or a word is left over.
#[tactic(auto, unfolding(crate::specs::ElementWords::element_count))]
fn count_in(words: usize) -> usize
    ensures { result ≡ element_count words }
{
    if words % ELEMENT_WORDS == 0 && words / ELEMENT_WORDS <= MOST_ELEMENTS {
        words / ELEMENT_WORDS
    } else {
        MOST_ELEMENTS + 1
    }
}

// The elements that the words are.
pub fn elements_in(words: &[u32]) -> Elements
    ensures answer { result ≡ elements_in words.now }
    ensures unpacking { UnpackingElements }
    ensures other_length { OtherElementsLength }
    ensures large_element { LargeElement }
{
    Elements {
        list: array::from_fn(|i| element_in(words, ELEMENT_WORDS * i)),
        count: count_in(words.len()),
    }
}
