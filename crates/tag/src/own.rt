// The tag between two lines, and what a set-up line makes of it.
use crate::LINE_OCTETS;
use crate::set_up::SetUp;
use crate::words::front;
use directory::Directory;
use initialisation::{Configuration, Element, Elements, Link, Phase};

const MOST_ELEMENTS: usize = 8;

// Octets of the tag: the first `used` are in use.
#[derive(Clone, Copy)]
pub struct Area {
    pub octets: [u8; LINE_OCTETS],
    pub used: usize,
}

impl Area {
    fn new() -> Area {
        Area {
            octets: [0; LINE_OCTETS],
            used: 0,
        }
    }

    fn keep(&mut self, octets: &[u8]) {
        keep(octets, &mut self.octets);
        self.used = octets.len();
    }

    pub(crate) fn in_use(&self) -> &[u8] {
        front(&self.octets, self.used)
    }
}

// Copies the octets to the front of `area`, which has room for what a line can carry.
fn keep(octets: &[u8], area: &mut [u8]) {
    if let Some(part) = area.get_mut(..octets.len()) {
        part.copy_from_slice(octets);
    }
}

#[derive(Clone, Copy)]
pub struct Tag {
    pub link: Link,
    pub elements: Elements,
    pub configuration: Configuration,
    pub eid: u32,
    pub directory: Directory,
    pub credentials: Area,
    pub factory: Area,
    pub writable: Area,
    // Each element's mark in a room of its own.
    pub marks: [u8; MOST_ELEMENTS * LINE_OCTETS],
}

impl Tag {
    // The tag before the first line: asleep, and everything empty or 0.
    pub(crate) fn new() -> Tag {
        Tag {
            link: Link {
                time: 0,
                tick: 0,
                phase: Phase::Sleeping,
            },
            elements: Elements {
                list: [Element {
                    eid: 0,
                    aid: 0,
                    mark: 0,
                    mark_length: 0,
                }; MOST_ELEMENTS],
                count: 0,
            },
            configuration: Configuration {
                class: 0,
                maker: 0,
                status: 0,
            },
            eid: 0,
            directory: directory::empty(),
            credentials: Area::new(),
            factory: Area::new(),
            writable: Area::new(),
            marks: [0; MOST_ELEMENTS * LINE_OCTETS],
        }
    }

    // One element more, with its mark. Where there are 8 already, the count is 9 and the list stays.
    fn add_element(&mut self, eid: u8, aid: u8, mark: &[u8]) {
        let place = self.elements.count;
        if place < MOST_ELEMENTS {
            let at = place * LINE_OCTETS;
            let marks = &mut self.marks[..];
            keep(mark, &mut marks[at..]);
            self.elements.list[place] = Element {
                eid,
                aid,
                mark: at as u32,
                mark_length: u8::try_from(mark.len()).unwrap_or(u8::MAX),
            };
            self.elements.count = place + 1;
        } else {
            self.elements.count = MOST_ELEMENTS + 1;
        }
    }

    // Takes a set-up line, whose octets stand at the front of `octets`.
    pub(crate) fn set_up(&mut self, line: SetUp, octets: &[u8]) {
        match line {
            SetUp::Configuration(configuration) => self.configuration = configuration,
            SetUp::Element { eid, aid, mark } => self.add_element(eid, aid, front(octets, mark)),
            SetUp::Eid(eid) => self.eid = eid,
            SetUp::Credentials(n) => self.credentials.keep(front(octets, n)),
            SetUp::Factory(n) => self.factory.keep(front(octets, n)),
            SetUp::Writable(n) => self.writable.keep(front(octets, n)),
            SetUp::Row(row) => self.directory = directory::with_row(self.directory, row),
        }
    }
}
