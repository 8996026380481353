// Containers up to their rows, and what stands behind a row.
ghost use Rattle.std.specs.Prelude.{◌≡◌, ◌≤◌, length};
ghost use Rattle.apdu_text.specs.Parts.{list_front, container_front, row_front, seam, going_on};
ghost use Rattle.apdu_text.specs.Ink.{Writes, stack_of};

use crate::pen::Pen;
use apdu::{ATTRIBUTE_ID_LIST, ATTRIBUTE_LIST, DSRC_EID, OCTET_STRING, Row};

impl Pen<'_> {
    // `[`, and `]` at once for a list of no rows.
    pub(crate) fn list_front(&mut self, n: u64)
        ensures { Writes (list_front n) self.old self.new }
    {
        self.character(b'[');
        if n == 0 {
            self.character(b']');
        }
    }

    // A container up to its rows; nothing for a kind that is not shown.
    pub(crate) fn container_front(&mut self, s: &[u8], kind: u64, n: u64, start: usize)
        ensures { Writes (container_front s.now kind n start) self.old self.new }
    {
        match kind {
            OCTET_STRING => self.string(b"octets:", s, start, n),
            DSRC_EID => self.number(b"eid:", n),
            ATTRIBUTE_ID_LIST => self.list(b"ids:", s, start, n),
            ATTRIBUTE_LIST => {
                self.word(b"attributes:");
                self.list_front(n);
            }
            _ => {}
        }
    }

    // A row up to its own rows.
    pub(crate) fn row_front(&mut self, s: &[u8], row: Row)
        ensures { Writes (row_front s.now row) self.old self.new }
    {
        self.decimal(u64::from(row.id));
        self.character(b'=');
        self.container_front(s, u64::from(row.kind), u64::from(row.n), row.start as usize);
    }

    // `]` for each of the innermost lists that ends, and `,` if another goes on; `due` holds how many rows are to come in each open list.
    pub(crate) fn seam(&mut self, due: &[u64])
        ensures { Writes (seam (stack_of due.now (length due.now))) self.old self.new }
    {
        for k in (0..due.len()).rev() {
            if due[k] != 0 {
                self.character(b',');
                return;
            }
            self.character(b']');
        }
    }
}

// How many of the open lists go on.
pub(crate) fn going_on(due: &[u64]) -> usize
    ensures { (stack_of due.now result ≡ going_on (stack_of due.now (length due.now))) × (result ≤ length due.now) }
{
    for k in (0..due.len()).rev() {
        if due[k] != 0 {
            return k + 1;
        }
    }
    0
}
