// The link record, and what a tag has of its own.

// A beacon: 16 and 27 bits.
#[derive(Clone, Copy, Debug, PartialEq, Eq)]
pub struct Beacon {
    pub manufacturer: u64,
    pub individual: u64,
}

// A ready tag has answered a beacon and listens to a LID.
#[derive(Clone, Copy, Debug, PartialEq, Eq)]
pub enum Phase {
    Sleeping,
    Looking,
    Ready { beacon: Beacon, lid: u32 },
}

// The time of the BST that was heard last, and the tick last awake: that BST's tick, in milliseconds.
#[derive(Clone, Copy, Debug, PartialEq, Eq)]
pub struct Link {
    pub time: u32,
    pub tick: u32,
    pub phase: Phase,
}

// An application of the tag, with its mark: `mark_length` octets from octet `mark` of the lent ones on.
#[derive(Clone, Copy, Debug, PartialEq, Eq)]
pub struct Element {
    pub eid: u8,
    pub aid: u8,
    pub mark: u32,
    pub mark_length: u8,
}

// The first `count` of the list.
#[derive(Clone, Copy, Debug, PartialEq, Eq)]
pub struct Elements {
    pub list: [Element; 8],
    pub count: usize,
}

// What a VST tells of the tag: 15, 16 and 16 bits.
#[derive(Clone, Copy, Debug, PartialEq, Eq)]
pub struct Configuration {
    pub class: u64,
    pub maker: u64,
    pub status: u64,
}
