// The fields of the messages that open the link.
ghost use Rattle.std.specs.Prelude.{◌≤◌, length};
ghost use Rattle.apdu_text.specs.MessageText.{bst_text, vst_text};
ghost use Rattle.apdu_text.specs.Ink.{Writes};

use crate::parts::{behind, front};
use crate::pen::Pen;
use apdu::{Bst, Entry, Row, Vst};

impl Pen<'_> {
    pub(crate) fn bst(&mut self, s: &[u8], m: Bst, entries: &[Entry], rows: &[Row])
        requires { length rows.now ≤ 32 }
        ensures { Writes (bst_text s.now m entries.now rows.now) self.old self.new }
    {
        self.number(b" manufacturer=", m.manufacturer);
        self.number(b" individual=", m.individual);
        self.number(b" time=", m.time);
        self.number(b" profile=", m.profile);
        let mandatory = front(entries, m.mandatory as usize);
        let rest = self.entries(b" mandatory=", s, mandatory, rows);
        if m.has_others {
            let others = front(behind(entries, m.mandatory as usize), m.others as usize);
            self.entries(b" optional=", s, others, rest);
        }
        self.list(b" profiles=", s, m.profiles, m.profile_count);
    }

    pub(crate) fn vst(&mut self, s: &[u8], m: Vst, entries: &[Entry], rows: &[Row])
        requires { length rows.now ≤ 32 }
        ensures { Writes (vst_text s.now m entries.now rows.now) self.old self.new }
    {
        self.number(b" fill=", m.fill);
        self.number(b" profile=", m.profile);
        let applications = front(entries, m.applications as usize);
        self.entries(b" applications=", s, applications, rows);
        self.number(b" class=", m.class);
        self.number(b" maker=", m.maker);
        self.number_if(m.has_status, b" status=", m.status);
    }
}
