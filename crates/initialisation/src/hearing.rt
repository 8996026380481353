// The BST call.
ghost use Rattle.std.specs.Prelude.{◌≡◌, ◌^◌, ◌<◌, ◌≤◌, true, length};
ghost use Rattle.refusals.specs.Check.{first_of};
ghost use Rattle.refusals.specs.Refusal.{refused_by};
ghost use Rattle.bits.specs.Strings.{is_inside};
ghost use Rattle.initialisation.specs.Elements.{element_sound};
ghost use Rattle.initialisation.specs.Hearing.{call, configuration_in_range, records_in_range, hearing_checks, beacon_of, sent_for, woken, entry_of, vst_of, BstGives};
ghost use Rattle.initialisation.specs.Theorems.{Hears};
ghost use Rattle.initialisation.specs.Searching.{Sends};

use crate::elements::elements_sound;
use crate::known::is_known;
use crate::offer::{take_pair, take_profile};
use crate::phases::{lid_in_range, link_in_range};
use crate::records::{Beacon, Configuration, Element, Elements, Link, Phase};
use apdu::{Bst, Entry, Lists, Message, Vst};
use refusals::Refusal;

// The octets that an output must have.
pub const LEAST_OUTPUT: usize = 512;
// The bounds of a configuration's 15 and 16 bits.
const CLASS_BOUND: u64 = 32768;

const WORD_BOUND: u64 = 65536;

// ---- checks

fn configuration_in_range(configuration: Configuration) -> bool
    ensures { result ≡ configuration_in_range configuration }
{
    configuration.class < CLASS_BOUND
        && configuration.maker < WORD_BOUND
        && configuration.status < WORD_BOUND
}

fn records_in_range(
    link: Link,
    bst: Bst,
    lists: Lists,
    lent: &[u8],
    configuration: Configuration,
) -> bool
    ensures { result ≡ records_in_range link bst lists lent.now configuration }
{
    link_in_range(link)
        && apdu_writing::well_formed(Message::Bst(bst), lists.rows, lists.entries, lent)
        && configuration_in_range(configuration)
}

// The first check to hold refuses.
fn check(octets: usize, lid: u32, sound: bool, fine: bool) -> Result<(), Refusal>
    ensures { refused_by result ≡ first_of (hearing_checks octets lid sound fine) }
{
    if octets < LEAST_OUTPUT {
        return Err(Refusal::StoreOrOutputLength);
    }
    if !lid_in_range(lid) {
        return Err(Refusal::LidOutOfRange);
    }
    if !sound {
        return Err(Refusal::ListNotSound);
    }
    if !fine {
        return Err(Refusal::RecordOutOfRange);
    }
    Ok(())
}

// ---- silence or a fresh start

// What the tag takes of a BST: a profile, and the element of a pair.
#[derive(Clone, Copy, Debug, PartialEq, Eq)]
pub struct Taken {
    pub profile: u64,
    pub element: Element,
}

fn beacon_of(bst: Bst) -> Beacon
    ensures { result ≡ beacon_of bst }
{
    Beacon {
        manufacturer: bst.manufacturer,
        individual: bst.individual,
    }
}

// What a VST is sent for, if one is sent.
fn choose(link: Link, bst: Bst, entries: [Entry; 32], lent: &[u8], own: Elements) -> Option<Taken>
    requires { (own.count ≤ 8) × (is_inside (length lent.now) bst.profiles bst.profile_count ≡ true) × (bst.time < 2 ^ 32) }
    ensures { result ≡ sent_for link bst entries lent.now own }
{
    if is_known(link.phase, link.time, beacon_of(bst), bst.time as u32) {
        return None;
    }
    let profile = take_profile(bst, lent)?;
    let element = take_pair(bst, entries, own)?;
    Some(Taken { profile, element })
}

// The phase of a tag that heard a BST and stays silent.
fn waken(phase: Phase) -> Phase
    ensures { result ≡ woken phase }
{
    match phase {
        Phase::Sleeping => Phase::Looking,
        Phase::Looking | Phase::Ready { .. } => phase,
    }
}

// ---- the VST

// The one entry of a VST.
fn entry_of(element: Element) -> Entry
    ensures { result ≡ entry_of element }
{
    Entry {
        has_eid: true,
        has_parameter: 0 < element.mark_length,
        aid: element.aid,
        eid: element.eid,
        kind: apdu::OCTET_STRING as u8,
        n: element.mark_length as u16,
        start: 0,
        rows: 0,
    }
}

fn vst_of(profile: u64, configuration: Configuration) -> Vst
    ensures { result ≡ vst_of profile configuration }
{
    Vst {
        fill: 0,
        profile,
        applications: 1,
        class: configuration.class,
        maker: configuration.maker,
        has_status: true,
        status: configuration.status,
    }
}

// Writes the VST, and answers how many octets it has.
fn send(
    profile: u64,
    element: Element,
    configuration: Configuration,
    marks: &[u8],
    out: &mut [u8],
) -> usize
    requires { (profile ≤ 1) × (element_sound (length marks.now) element ≡ true) × (configuration_in_range configuration ≡ true) × (512 ≤ length out.old) }
    ensures { Sends profile element configuration marks.now result out.old out.new }
{
    let mut entries = apdu::no_entries();
    entries[0] = entry_of(element);
    let vst = vst_of(profile, configuration);
    let first = element.mark as usize;
    let mark = &marks[first..first + element.mark_length as usize];
    apdu_writing::write(Message::Vst(vst), apdu::no_rows(), entries, mark, out).unwrap_or(0)
}

// ---- the call

// The tag hears a BST whose strings stand in `lent`; its elements' marks stand in `marks`. Every BST that is not refused stores its time and tick and wakes a
// sleeping tag. The tag stays silent (None), or it starts under the fresh LID and writes its VST of so many octets to the front of `out`. Refused 1 for an
// output below 512 octets, then 3, 26, and 23 for the link, the BST or the configuration; a refusal changes nothing.
pub fn hear_bst(
    link: &mut Link,
    bst: Bst,
    lists: Lists,
    lent: &[u8],
    tick: u32,
    lid: u32,
    own: Elements,
    marks: &[u8],
    configuration: Configuration,
    out: &mut [u8],
) -> Result<Option<usize>, Refusal>
    ensures gives { BstGives (call link.old bst lists lent.now tick lid own marks.now configuration out.old) result link.new out.new }
    ensures hears { Hears (call link.old bst lists lent.now tick lid own marks.now configuration out.old) }
{
    let sound = elements_sound(own, marks.len());
    let fine = records_in_range(*link, bst, lists, lent, configuration);
    check(out.len(), lid, sound, fine)?;
    let time = bst.time as u32;
    match choose(*link, bst, lists.entries, lent, own) {
        None => {
            let phase = waken(link.phase);
            *link = Link { time, tick, phase };
            Ok(None)
        }
        Some(Taken { profile, element }) => {
            let octets = send(profile, element, configuration, marks, out);
            let beacon = beacon_of(bst);
            *link = Link {
                time,
                tick,
                phase: Phase::Ready { beacon, lid },
            };
            Ok(Some(octets))
        }
    }
}
