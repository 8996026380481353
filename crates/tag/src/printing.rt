// Answer lines, gathered in a text buffer.
use crate::BUFFER_OCTETS;
use crate::calls::Answer;
use crate::own::Tag;
use crate::words::front;
use initialisation::{Link, Phase};
use std::fmt::{self, Write};
use std::io;

// Behind this place there may be too little room for a line.
const LAST_PLACE: usize = 60000;

// The characters of hex digits.
const HEX_DIGITS: [u8; 16] = *b"0123456789ABCDEF";

pub(crate) fn print_heading(rt: &impl Print) -> io::Result<()> {
    rt.write_all(b"line answer\n")
}

// Text that is not yet written: the octets of `text` in front of `place`.
#[derive(Clone, Copy)]
pub struct Printer {
    text: [u8; BUFFER_OCTETS],
    place: usize,
}

impl Write for Printer {
    // What has no room is left out: the text is written before there is too little.
    fn write_str(&mut self, s: &str) -> fmt::Result {
        self.place = bench_lines::keep_part(s.as_bytes(), &mut self.text, self.place);
        Ok(())
    }
}

impl Printer {
    pub(crate) fn new() -> Printer {
        Printer {
            text: [0; BUFFER_OCTETS],
            place: 0,
        }
    }

    // Writes the text to standard output.
    pub(crate) fn flush(&mut self, rt: &impl Print) -> io::Result<()> {
        rt.write_all(front(&self.text, self.place))?;
        self.place = 0;
        Ok(())
    }

    // Puts a character; one that has no room is left out.
    fn put(&mut self, character: u8) {
        if let Some(place) = self.text.get_mut(self.place) {
            *place = character;
            self.place += 1;
        }
    }

    // Two hex digits for each octet, put without the formatter, whose work for each octet is many times that of its digits.
    fn put_octets(&mut self, octets: &[u8]) -> fmt::Result {
        for octet in octets {
            self.put(HEX_DIGITS[usize::from(octet / 16)]);
            self.put(HEX_DIGITS[usize::from(octet % 16)]);
        }
        Ok(())
    }

    fn put_link(&mut self, link: Link) -> fmt::Result {
        match link.phase {
            Phase::Sleeping => write!(self, " phase=sleeping")?,
            Phase::Looking => write!(self, " phase=looking")?,
            Phase::Ready { beacon, lid } => write!(
                self,
                " phase=ready:{}:{}:{lid:07X}",
                beacon.manufacturer, beacon.individual
            )?,
        }
        write!(self, " time={} tick={}", link.time, link.tick)
    }

    // An answer behind its line number.
    fn put_answer(&mut self, answer: Answer, tag: &Tag, output: &[u8]) -> fmt::Result {
        match answer {
            Answer::Silent => {
                write!(self, " silent")?;
                self.put_link(tag.link)
            }
            Answer::Vst(n) => {
                write!(self, " vst ")?;
                self.put_octets(front(output, n))?;
                self.put_link(tag.link)
            }
            Answer::Done => {
                write!(self, " done")?;
                self.put_link(tag.link)
            }
            Answer::Reply(n) => {
                write!(self, " reply ")?;
                self.put_octets(front(output, n))
            }
            Answer::NoReply => write!(self, " no-reply"),
            Answer::Known(id) => {
                write!(self, " known ")?;
                let directory = tag.directory;
                self.put_octets(directory::lookup_among(
                    directory.rows,
                    directory.count,
                    tag.factory.in_use(),
                    tag.writable.in_use(),
                    id,
                ))
            }
            Answer::Unknown => write!(self, " unknown"),
            Answer::Writable => {
                write!(self, " writable ")?;
                self.put_octets(tag.writable.in_use())
            }
            Answer::Refused(number) => write!(self, " refused-{number}"),
            Answer::RefusedAt(number, position) => {
                write!(self, " refused-{number} at {position}")
            }
        }
    }

    fn put_line(&mut self, number: u64, answer: Answer, tag: &Tag, output: &[u8]) -> fmt::Result {
        write!(self, "{number}")?;
        self.put_answer(answer, tag, output)?;
        writeln!(self)
    }

    // Puts the line of an answer behind the text, which is written first if there may be too little room.
    pub(crate) fn print_line(
        &mut self,
        rt: &impl Print,
        number: u64,
        answer: Answer,
        tag: &Tag,
        output: &[u8],
    ) -> io::Result<()> {
        if LAST_PLACE <= self.place {
            self.flush(rt)?;
        }
        // The printer refuses no text.
        let _ = self.put_line(number, answer, tag, output);
        Ok(())
    }
}
