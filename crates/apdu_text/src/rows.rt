// Attribute rows: they lie flat, those of a list behind it.
ghost use Rattle.std.specs.Prelude.{[], ◌++◌, ◌≤◌, length};
ghost use Rattle.apdu_text.specs.Parts.{when, opened, rows_text, container_text, attribute_rows};
ghost use Rattle.apdu_text.specs.Words.{attributes_is};
ghost use Rattle.apdu_text.specs.Ink.{Writes};

use crate::containers::going_on;
use crate::pen::Pen;
use apdu::{Row, announces};

impl Pen<'_> {
    // Rows, as far as they belong to a list of n rows.
    fn rows(&mut self, s: &[u8], rows: &[Row], n: u64)
        requires { length rows.now ≤ 32 }
        ensures { Writes (rows_text s.now (opened n []) rows.now) self.old self.new }
    {
        if n == 0 {
            return;
        }
        // How many rows are to come in each of the `depth` open lists.
        let mut due = [0u64; 33];
        due[0] = n;
        let mut depth = 1;
        for row in rows {
            if depth == 0 {
                return;
            }
            self.row_front(s, *row);
            due[depth - 1] = due[depth - 1].saturating_sub(1);
            let more = announces(u64::from(row.kind), u64::from(row.n));
            if more == 0 {
                self.seam(&due[..depth]);
                depth = going_on(&due[..depth]);
            } else {
                due[depth] = more;
                depth += 1;
            }
        }
    }

    // A container under a name, with its rows, if it is there.
    pub(crate) fn container_if(
        &mut self,
        is: bool,
        name: &[u8],
        s: &[u8],
        kind: u64,
        n: u64,
        start: usize,
        rows: &[Row],
    )
        requires { length rows.now ≤ 32 }
        ensures { Writes (when is (name.now ++ container_text s.now kind n start rows.now)) self.old self.new }
    {
        if is {
            self.word(name);
            self.container_front(s, kind, n, start);
            self.rows(s, rows, announces(kind, n));
        }
    }

    // The attributes of a message, if they are there: a list of n rows.
    pub(crate) fn attributes_if(&mut self, is: bool, s: &[u8], n: u64, rows: &[Row])
        requires { length rows.now ≤ 32 }
        ensures { Writes (when is (attributes_is ++ attribute_rows s.now n rows.now)) self.old self.new }
    {
        if is {
            self.word(b" attributes=");
            self.list_front(n);
            self.rows(s, rows, n);
        }
    }
}
