// The records of the ten messages (01, "Messages"; ISO 15628, Annex A), and 01's limits. A record holds numbers. An octet string or a list of ids is a part
// of the lent octets: the bit place where it starts, and how many octets or ids it has. Absent fields and unused rows are 0. Beside them stand the counters
// of attribute rows that the reader and the writer share.

#![tactic(auto)]

mod due;
mod limits;
mod lists;
mod records;

pub use due::{Due, after_row, announces, known, level};
pub use limits::{
    ATTRIBUTE_ID_LIST, ATTRIBUTE_LIST, CHOICES, DEEPEST, DSRC_EID, LONGEST_MESSAGE, LONGEST_STRING,
    MOST_COUNTED, MOST_ROWS, OCTET_STRING,
};
pub use lists::{Entry, Lists, Row, clamped, entry_rows, no_entries, no_rows};
pub use records::{
    ActionResponse, Bst, GetRequest, GetResponse, Message, Request, Response, SetRequest, Vst,
};
