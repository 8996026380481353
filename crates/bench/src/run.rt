// Lines of the input, one after the other.
use crate::printing::Printer;
use bench_joining::front;
use bench_lines::{LONGEST_LINE, Totals};
use reassembly::{OUTPUT_OCTETS, STORE_OCTETS};
use slots::Table;
use std::io;

// What goes on from line to line: the table with its store, the octets of a line that has not ended, the lines counted, the totals, and the text of
// the output; and the buffers for an LSDU and a message.
#[derive(Clone, Copy)]
pub struct Run {
    table: Table,
    store: [u8; STORE_OCTETS],
    line: [u8; LONGEST_LINE + 1],
    held: usize,
    lines: u64,
    totals: Totals,
    printer: Printer,
    lsdu: [u8; 300],
    output: [u8; OUTPUT_OCTETS],
}

impl Run {
    pub(crate) fn new() -> Run {
        Run {
            table: reassembly::empty(),
            store: [0; STORE_OCTETS],
            line: [0; LONGEST_LINE + 1],
            held: 0,
            lines: 0,
            totals: Totals {
                accepted: 0,
                delivered: 0,
                dropped: 0,
                held: 0,
            },
            printer: Printer::new(),
            lsdu: [0; 300],
            output: [0; OUTPUT_OCTETS],
        }
    }

    // The heading stands in front of all lines.
    pub(crate) fn put_heading(&mut self) {
        self.printer.put_heading();
    }

    // A line has ended: it is joined, counted and printed.
    fn end_line(&mut self, rt: &impl Print) -> io::Result<()> {
        let columns = bench_joining::take_line(
            front(&self.line, self.held),
            &mut self.table,
            &mut self.lsdu,
            &mut self.store,
            &mut self.output,
        );
        self.held = 0;
        self.lines = self.lines.wrapping_add(1);
        let totals = &mut self.totals;
        totals.accepted = totals.accepted.wrapping_add(columns.accepted);
        totals.delivered = totals.delivered.wrapping_add(columns.delivered);
        totals.dropped = totals.dropped.wrapping_add(columns.dropped);
        self.printer.print_line(rt, self.lines, columns)
    }

    // Takes the octets of `input`: each line feed ends a line, and what stands behind the last one is kept.
    pub(crate) fn take(&mut self, rt: &impl Print, input: &[u8]) -> io::Result<()> {
        let mut rest = input;
        while let Some((line, behind)) = bench_lines::first_line(rest) {
            self.held = bench_lines::keep_part(line, &mut self.line, self.held);
            self.end_line(rt)?;
            rest = behind;
        }
        self.held = bench_lines::keep_part(rest, &mut self.line, self.held);
        Ok(())
    }

    // The text behind the last line feed is a line if it is not empty. Then come the totals.
    pub(crate) fn finish(&mut self, rt: &impl Print) -> io::Result<()> {
        if self.held != 0 {
            self.end_line(rt)?;
        }
        self.totals.held = reassembly::held_in(self.table) as u64;
        self.printer.print_totals(rt, self.totals)
    }
}
