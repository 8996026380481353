// 01's limits on messages, and the container kinds that are read and written, numbered by Annex A.

// The kinds of message: choices from here on are refused (15).
pub const CHOICES: u64 = 10;
// The octets of a message (21).
pub const LONGEST_MESSAGE: usize = 512;
// What a count may announce (18).
pub const MOST_COUNTED: u64 = 16;
// The attribute rows of a message, nested ones too (18).
pub const MOST_ROWS: u64 = 32;
// The depth of a container, the outermost being 1 (19).
pub const DEEPEST: usize = 4;
// The octets of an octet string.
pub const LONGEST_STRING: u64 = 127;

pub const OCTET_STRING: u64 = 2;

pub const DSRC_EID: u64 = 7;

pub const ATTRIBUTE_ID_LIST: u64 = 8;

pub const ATTRIBUTE_LIST: u64 = 9;
