// The messages of the I-Kernel, behind their choice: BST and VST. They differ in what stands before and behind their application lists.
ghost use Rattle.std.specs.Prelude.{◌≤◌, length};
ghost use Rattle.apdu_reading.specs.Applications.{ConfigurationRead};
ghost use Rattle.apdu_reading.specs.Messages.{FrontRead, EndRead};
ghost use Rattle.apdu_reading.specs.Answers.{Chosen, Reads};

use crate::applications::application_lists;
use crate::component::{id_list, integer};
use crate::cursor::{Cursor, piece};
use crate::front::Reading;
use crate::services::flag;
use apdu::{Bst, Message, Vst};

// A BST or VST up to its application lists. What its kind does not have is 0, and a VST has no second list.
#[derive(Clone, Copy, Debug, Default, PartialEq, Eq)]
pub struct LinkFront {
    pub cursor: Cursor,
    pub choice: u64,
    pub has_others: bool,
    pub fill: u64,
    pub manufacturer: u64,
    pub individual: u64,
    pub time: u64,
    pub profile: u64,
}

pub(crate) fn link_front(s: &[u8], c: Cursor) -> LinkFront
    requires { (length s.now ≤ 512) × Chosen s.now c × (8 ≤ c.value) }
    ensures { FrontRead s.now result }
{
    if c.value == 8 {
        let lead = piece(s, 44, false, c);
        let has_others = flag(s, 4);
        let manufacturer = bits::read_field(s, 5, 16);
        let individual = bits::read_field(s, 21, 27);
        let time = piece(s, 32, true, lead);
        let profile = integer(s, time);
        LinkFront {
            cursor: profile,
            choice: 8,
            has_others,
            manufacturer,
            individual,
            time: time.value,
            profile: profile.value,
            ..LinkFront::default()
        }
    } else {
        let lead = piece(s, 4, false, c);
        let fill = bits::read_field(s, 4, 4);
        let profile = integer(s, lead);
        LinkFront {
            cursor: profile,
            choice: 9,
            fill,
            profile: profile.value,
            ..LinkFront::default()
        }
    }
}

#[derive(Clone, Copy, Debug, PartialEq, Eq)]
pub struct Configuration {
    pub cursor: Cursor,
    pub class: u64,
    pub maker: u64,
    pub has_status: bool,
    pub status: u64,
}

// The configuration: status bit and class, maker, and the status if its bit is 1.
pub(crate) fn configured(s: &[u8], c: Cursor) -> Configuration
    requires { length s.now ≤ 512 }
    ensures { ConfigurationRead s.now c result }
{
    let class = piece(s, 16, true, c);
    let has_status = class.value / 32768 == 1;
    let maker = piece(s, 16, true, class);
    let without = Configuration {
        cursor: maker,
        class: class.value % 32768,
        maker: maker.value,
        has_status,
        status: 0,
    };
    if has_status {
        let status = piece(s, 16, true, maker);
        Configuration {
            cursor: status,
            status: status.value,
            ..without
        }
    } else {
        without
    }
}

// The message, and the cursor behind it.
#[derive(Clone, Copy, Debug, PartialEq, Eq)]
pub struct LinkEnd {
    pub cursor: Cursor,
    pub message: Message,
}

// What stands behind the application lists, of which c is the end: the profiles of a BST, the configuration of a VST.
pub(crate) fn link_end(s: &[u8], f: LinkFront, mandatory: u64, others: u64, c: Cursor) -> LinkEnd
    requires { (length s.now ≤ 512) × FrontRead s.now f }
    ensures { EndRead s.now f mandatory others c result }
{
    if f.choice == 8 {
        let profiles = id_list(s, c);
        let message = Bst {
            manufacturer: f.manufacturer,
            individual: f.individual,
            time: f.time,
            profile: f.profile,
            mandatory,
            has_others: f.has_others,
            others,
            profiles: profiles.start,
            profile_count: profiles.value,
        };
        LinkEnd {
            cursor: profiles,
            message: Message::Bst(message),
        }
    } else {
        let held = configured(s, c);
        let message = Vst {
            fill: f.fill,
            profile: f.profile,
            applications: mandatory,
            class: held.class,
            maker: held.maker,
            has_status: held.has_status,
            status: held.status,
        };
        LinkEnd {
            cursor: held.cursor,
            message: Message::Vst(message),
        }
    }
}

// Choices 8 and 9.
pub(crate) fn link(s: &[u8], c: Cursor) -> Reading
    requires { (length s.now ≤ 512) × Chosen s.now c × (8 ≤ c.value) }
    ensures { Reads s.now result }
{
    application_lists(s, link_front(s, c))
}
