// The tag's link, in six words, all zero at first.
ghost use Rattle.std.specs.Prelude.{◌≡◌};
ghost use Rattle.initialisation.specs.Link.{answer_of, release_of, tick_of};
ghost use Rattle.initialisation.specs.Hearing.{call};
ghost use Rattle.words.specs.LinkWords.{link_in};
ghost use Rattle.words.specs.ElementWords.{elements_in};
ghost use Rattle.exports.specs.LinkCalls.{change_number, change_words, ChangeGives, effect, heard_effect, brought, BstEffect};
ghost use Rattle.exports.specs.LinkCalls.{UnpackingRelease, UnpackingTick, UnpackingBst, KeptReleased, KeptTicked, KeptHeard};

use crate::refused::refused;
use apdu::{Bst, Lists, Message};
use apdu_reading::Answer;
use initialisation::{Configuration, Link};
use refusals::Refusal;
use words::{elements_in, link_in, packed, put_link};

// ---- release and tick

// Puts the link that a call leaves; after a refusal the words stay as they were.
fn changed(answer: Result<(), Refusal>, after: Link, link: &mut [u32]) -> u64
    ensures { (result ≡ change_number (answer_of answer)) × (link.new ≡ change_words (answer_of answer) after link.old) }
{
    match answer {
        Ok(()) => {
            put_link(after, link);
            packed(0, 0, 0, 0)
        }
        Err(refusal) => refused(refusal),
    }
}

// Release of a LID. Refused 3, 23, 25.
#[unsafe(no_mangle)]
pub extern "C" fn semuryeon_link_release(lid: u32, link: &mut [u32]) -> u64
    ensures answer { ChangeGives (release_of lid (link_in link.old)) link.old result link.new }
    ensures unpacking { UnpackingRelease }
    ensures kept { KeptReleased }
{
    let mut after = link_in(link);
    let answer = initialisation::release(&mut after, lid);
    changed(answer, after, link)
}

// A tick passes. Refused 23.
#[unsafe(no_mangle)]
pub extern "C" fn semuryeon_link_tick(tick: u32, link: &mut [u32]) -> u64
    ensures answer { ChangeGives (tick_of tick (link_in link.old)) link.old result link.new }
    ensures unpacking { UnpackingTick }
    ensures kept { KeptTicked }
{
    let mut after = link_in(link);
    let answer = initialisation::tick(&mut after, tick);
    changed(answer, after, link)
}

// ---- BST

fn hear(
    s: &[u8],
    bst: Bst,
    lists: Lists,
    tick: u32,
    lid: u32,
    link: &mut [u32],
    elements: &[u32],
    marks: &[u8],
    configuration: Configuration,
    out: &mut [u8],
) -> u64
    ensures { effect result link.new out.new ≡ heard_effect link.old (call (link_in link.old) bst lists s.now tick lid (elements_in elements.now) marks.now configuration out.old) }
{
    let mut after = link_in(link);
    let answer = initialisation::hear_bst(
        &mut after,
        bst,
        lists,
        s,
        tick,
        lid,
        elements_in(elements),
        marks,
        configuration,
        out,
    );
    match answer {
        Ok(None) => {
            put_link(after, link);
            packed(0, 0, 0, 0)
        }
        Ok(Some(octets)) => {
            put_link(after, link);
            packed(0, 1, octets, 0)
        }
        Err(refusal) => refused(refusal),
    }
}

// The tag hears the BST that `s` is: kind 0 is silent, 1 a VST at the front of `out`, whose octets are first. Elements are four words each (eid, AID, start and
// length of the mark within `marks`). Refused as reading refuses, first being the position; 23 for another message; then 1, 3, 26, 23.
#[unsafe(no_mangle)]
pub extern "C" fn semuryeon_link_bst(
    s: &[u8],
    tick: u32,
    lid: u32,
    link: &mut [u32],
    elements: &[u32],
    marks: &[u8],
    class: u32,
    maker: u32,
    status: u32,
    out: &mut [u8],
) -> u64
    ensures answer { BstEffect (brought link.old tick lid (elements_in elements.now) marks.now (record { class = class; maker = maker; status = status }) out.old) s.now result link.new out.new }
    ensures unpacking { UnpackingBst }
    ensures kept { KeptHeard }
{
    let reading = apdu_reading::read(s);
    match reading.answer {
        Answer::Refused(number, position) => packed(number, 0, position, 0),
        Answer::Message(message) => match message {
            Message::Bst(bst) => {
                let configuration = Configuration {
                    class: u64::from(class),
                    maker: u64::from(maker),
                    status: u64::from(status),
                };
                hear(
                    s,
                    bst,
                    reading.lists,
                    tick,
                    lid,
                    link,
                    elements,
                    marks,
                    configuration,
                    out,
                )
            }
            _ => refused(Refusal::RecordOutOfRange),
        },
    }
}
