// Lines of the script, one after the other.
use crate::calls::{Answer, NOT_A_LINE, read_call};
use crate::own::Tag;
use crate::printing::Printer;
use crate::set_up::read_set_up;
use crate::words::front;
use crate::{LINE_OCTETS, LONGEST_LINE};
use std::io;

// What goes on from line to line: the tag, the octets of a line that has not ended, the lines counted, and the text not yet written; and the buffers
// for a line's octets and for an answer's.
#[derive(Clone, Copy)]
pub struct Run {
    tag: Tag,
    line: [u8; LONGEST_LINE + 1],
    held: usize,
    lines: u64,
    printer: Printer,
    octets: [u8; LINE_OCTETS],
    output: [u8; 512],
}

impl Run {
    pub(crate) fn new() -> Run {
        Run {
            tag: Tag::new(),
            line: [0; LONGEST_LINE + 1],
            held: 0,
            lines: 0,
            printer: Printer::new(),
            octets: [0; LINE_OCTETS],
            output: [0; 512],
        }
    }

    // A line has ended: it sets the tag up, which has no answer, or calls it. One that is too long has none of the forms.
    fn end_line(&mut self, rt: &impl Print) -> io::Result<()> {
        let held = if LONGEST_LINE < self.held {
            0
        } else {
            self.held
        };
        self.held = 0;
        self.lines = self.lines.wrapping_add(1);
        let line = front(&self.line, held);
        if let Some(change) = read_set_up(line, &mut self.octets) {
            self.tag.set_up(change, &self.octets);
            return Ok(());
        }
        let answer = match read_call(line, &mut self.octets) {
            Some(call) => self.tag.take_call(call, &self.octets, &mut self.output),
            None => Answer::Refused(NOT_A_LINE),
        };
        self.printer
            .print_line(rt, self.lines, answer, &self.tag, &self.output)
    }

    // Takes the octets of `input`: each line feed ends a line, and what stands behind the last one is kept. Then the answers are written.
    pub(crate) fn take(&mut self, rt: &impl Print, input: &[u8]) -> io::Result<()> {
        let mut rest = input;
        while let Some((line, behind)) = bench_lines::first_line(rest) {
            self.held = bench_lines::keep_part(line, &mut self.line, self.held);
            self.end_line(rt)?;
            rest = behind;
        }
        self.held = bench_lines::keep_part(rest, &mut self.line, self.held);
        self.printer.flush(rt)
    }

    // The text behind the last line feed is a line if it is not empty.
    pub(crate) fn finish(&mut self, rt: &impl Print) -> io::Result<()> {
        if self.held != 0 {
            self.end_line(rt)?;
        }
        self.printer.flush(rt)
    }
}
