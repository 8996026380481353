// Application entries with their attribute rows.
ghost use Rattle.std.specs.Prelude.{◌≡◌, ◌++◌, ◌≤◌, length, take, drop};
ghost use Rattle.apdu.specs.Values.{entry_rows, rows_of};
ghost use Rattle.apdu_text.specs.Parts.{entry_text, entry_list};
ghost use Rattle.apdu_text.specs.Ink.{Writes};

use crate::parts::{behind, front};
use crate::pen::Pen;
use apdu::{Entry, Row, entry_rows};

impl Pen<'_> {
    // One entry with its rows.
    fn entry(&mut self, s: &[u8], e: Entry, rows: &[Row])
        requires { length rows.now ≤ 32 }
        ensures { Writes (entry_text s.now e rows.now) self.old self.new }
    {
        self.decimal(u64::from(e.aid));
        self.number_if(e.has_eid, b"/", u64::from(e.eid));
        self.container_if(
            e.has_parameter,
            b"=",
            s,
            u64::from(e.kind),
            u64::from(e.n),
            e.start as usize,
            rows,
        );
    }

    // A list of entries under a name, each with its own of the rows; the rows behind theirs are handed back.
    pub(crate) fn entries<'r>(
        &mut self,
        name: &[u8],
        s: &[u8],
        entries: &[Entry],
        rows: &'r [Row],
    ) -> &'r [Row]
        requires { length rows.now ≤ 32 }
        ensures { Writes (name.now ++ entry_list s.now entries.now rows.now) self.old self.new × (result.now ≡ drop (rows_of entries.now) rows.now) }
    {
        self.word(name);
        self.character(b'[');
        let mut rest = rows;
        for (i, e) in entries.iter().enumerate() {
            let own = entry_rows(*e);
            self.entry(s, *e, front(rest, own));
            rest = behind(rest, own);
            if i + 1 < entries.len() {
                self.character(b',');
            }
        }
        self.character(b']');
        rest
    }
}
