// Lines of the input, one after the other.
use crate::page::{Page, front};
use apdu::{Lists, Message};
use apdu_reading::Answer;
use std::io::{self, Read};

// The most characters of a line.
const LONGEST_LINE: usize = 2048;

// What goes on from line to line: the lines counted, the totals, the first `held` characters of a line that has not ended, the octets of the last line and
// of its message written again, the text not yet written.
#[derive(Clone, Copy)]
pub struct Run {
    pub lines: u64,
    pub messages: u64,
    pub refused: u64,
    pub same: u64,
    pub held: usize,
    pub line: [u8; 2049],
    pub octets: [u8; 1024],
    pub again: [u8; 512],
    pub page: Page,
}

pub(crate) fn begin() -> Run {
    Run {
        lines: 0,
        messages: 0,
        refused: 0,
        same: 0,
        held: 0,
        line: [0; 2049],
        octets: [0; 1024],
        again: [0; 512],
        page: Page {
            text: [0; 65536],
            place: 0,
        },
    }
}

impl Run {
    // Whether the record, written again, gives the `n` octets that it was read from.
    fn is_same_again(&mut self, message: Message, lists: Lists, n: usize) -> bool {
        let octets = front(&self.octets, n);
        match apdu_writing::write(message, lists.rows, lists.entries, octets, &mut self.again) {
            Ok(size) => size == octets.len() && bits::same_string(octets, 0, &self.again, 0, size),
            Err(_) => false,
        }
    }

    fn refuse(&mut self, refusal: u8, position: usize) {
        self.refused = self.refused.wrapping_add(1);
        self.page.refusal(refusal, position);
    }

    // Answers a line of `n` octets.
    fn answer(&mut self, n: usize) {
        let reading = apdu_reading::read(front(&self.octets, n));
        let lists = reading.lists;
        match reading.answer {
            Answer::Refused(refusal, position) => self.refuse(refusal, position),
            Answer::Message(message) => {
                self.messages = self.messages.wrapping_add(1);
                if self.is_same_again(message, lists, n) {
                    self.same = self.same.wrapping_add(1);
                }
                self.page.message(message, lists, front(&self.octets, n));
            }
        }
    }

    // Answers the line that is held.
    fn end_line(&mut self, rt: &impl Print) -> io::Result<()> {
        self.lines = self.lines.wrapping_add(1);
        self.page.number(rt, self.lines)?;
        let line = front(&self.line, self.held);
        match bench_lines::read_hex(line, LONGEST_LINE, &mut self.octets) {
            Ok(n) => self.answer(n),
            Err(refusal) => self.refuse(u8::from(refusal), 0),
        }
        self.held = 0;
        Ok(())
    }

    // Takes octets of the input: each line feed ends a line, and what stands behind the last one is held.
    fn take(&mut self, rt: &impl Print, input: &[u8]) -> io::Result<()> {
        let mut rest = input;
        while let Some((line, behind)) = bench_lines::first_line(rest) {
            self.held = bench_lines::keep_part(line, &mut self.line, self.held);
            self.end_line(rt)?;
            rest = behind;
        }
        self.held = bench_lines::keep_part(rest, &mut self.line, self.held);
        Ok(())
    }

    // The heading, a line for each line of standard input, and the totals. A last line without line feed counts if it is not empty. A failed read or write
    // ends the run with its error.
    pub(crate) fn answer_all(
        &mut self,
        rt: &(impl Input + Print),
        input: &mut [u8],
    ) -> io::Result<()> {
        self.page.heading();
        let mut reader = rt.reader();
        // A proved loop has to end, so it counts its turns up to a number that no run uses up.
        for _ in 0..u64::MAX {
            let n = reader.read(input)?;
            if n == 0 {
                break;
            }
            self.take(rt, front(input, n))?;
        }
        if self.held != 0 {
            self.end_line(rt)?;
        }
        self.page.totals(rt, self.messages, self.refused, self.same)
    }
}
