// Set-up lines, read.
use crate::numbers::{decimal, narrow, read_octets};
use crate::words::{has_form, word};
use directory::Row;
use initialisation::Configuration;

// Octets of the line stand at the front of the lent buffer, and are counted here.
#[derive(Clone, Copy, Debug, PartialEq, Eq)]
pub enum SetUp {
    Configuration(Configuration),
    Element { eid: u8, aid: u8, mark: usize },
    Eid(u32),
    Credentials(usize),
    Factory(usize),
    Writable(usize),
    Row(Row),
}

fn read_configuration(line: &[u8]) -> Option<SetUp> {
    Some(SetUp::Configuration(Configuration {
        class: u64::from(decimal(word(line, 1))?),
        maker: u64::from(decimal(word(line, 2))?),
        status: u64::from(decimal(word(line, 3))?),
    }))
}

fn read_element(line: &[u8], octets: &mut [u8]) -> Option<SetUp> {
    Some(SetUp::Element {
        eid: narrow(decimal(word(line, 1))?),
        aid: narrow(decimal(word(line, 2))?),
        mark: read_octets(word(line, 3), octets)?,
    })
}

// Whether a word is the second of two names, if it is one of them.
fn second_of(word: &[u8], first: &[u8], second: &[u8]) -> Option<bool> {
    if word == first {
        Some(false)
    } else if word == second {
        Some(true)
    } else {
        None
    }
}

fn read_row(line: &[u8]) -> Option<SetUp> {
    Some(SetUp::Row(Row {
        id: narrow(decimal(word(line, 1))?),
        writable: second_of(word(line, 2), b"factory", b"writable")?,
        start: decimal(word(line, 3))? as usize,
        length: decimal(word(line, 4))? as usize,
        protected: second_of(word(line, 5), b"open", b"protected")?,
    }))
}

// What a line sets up; its octets stand at the front of `octets`.
pub(crate) fn read_set_up(line: &[u8], octets: &mut [u8]) -> Option<SetUp> {
    if has_form(line, b"config", 4) {
        read_configuration(line)
    } else if has_form(line, b"element", 4) {
        read_element(line, octets)
    } else if has_form(line, b"eid", 2) {
        Some(SetUp::Eid(decimal(word(line, 1))?))
    } else if has_form(line, b"credentials", 2) {
        Some(SetUp::Credentials(read_octets(word(line, 1), octets)?))
    } else if has_form(line, b"factory", 2) {
        Some(SetUp::Factory(read_octets(word(line, 1), octets)?))
    } else if has_form(line, b"writable", 2) {
        Some(SetUp::Writable(read_octets(word(line, 1), octets)?))
    } else if has_form(line, b"row", 6) {
        read_row(line)
    } else {
        None
    }
}
