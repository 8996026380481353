// Text is gathered in a buffer and written when the buffer has no more room.
use crate::BUFFER_OCTETS;
use bench_joining::{Columns, front};
use bench_lines::Totals;
use refusals::Refusal;
use std::io;

// Text that is not yet written: the octets of `text` in front of `place`.
#[derive(Clone, Copy)]
pub struct Printer {
    text: [u8; BUFFER_OCTETS],
    place: usize,
}

impl Printer {
    pub(crate) fn new() -> Printer {
        Printer {
            text: [0; BUFFER_OCTETS],
            place: 0,
        }
    }

    // Puts the heading in place of the text.
    pub(crate) fn put_heading(&mut self) {
        self.place = bench_lines::append_heading(&mut self.text, 0).unwrap_or(0);
    }

    // Writes the text to standard output.
    pub(crate) fn flush(&mut self, rt: &impl Print) -> io::Result<()> {
        rt.write_all(front(&self.text, self.place))?;
        self.place = 0;
        Ok(())
    }

    fn append_line(&mut self, number: u64, columns: Columns) -> Result<(), Refusal> {
        self.place = bench_lines::append_answer(
            number,
            columns.answer,
            columns.octets,
            columns.dropped,
            &mut self.text,
            self.place,
        )?;
        Ok(())
    }

    // Puts a line of output behind the text, which is written first if there is no room.
    pub(crate) fn print_line(
        &mut self,
        rt: &impl Print,
        number: u64,
        columns: Columns,
    ) -> io::Result<()> {
        if self.append_line(number, columns).is_err() {
            self.flush(rt)?;
            // The empty buffer has room for every line.
            let _ = self.append_line(number, columns);
        }
        Ok(())
    }

    // Writes the text and the totals behind it.
    pub(crate) fn print_totals(&mut self, rt: &impl Print, totals: Totals) -> io::Result<()> {
        self.flush(rt)?;
        self.place = bench_lines::append_totals(totals, &mut self.text, 0).unwrap_or(0);
        self.flush(rt)
    }
}
