// The text that is not yet written: it is written when a line may have no more room.
use apdu::{Lists, Message};
use std::io;

// More characters than the line of any message has: each of its 512 octets shows as fewer than eight characters.
const LONGEST_TEXT: usize = 8192;

// The first `n` octets, or all where there are fewer.
pub(crate) fn front(s: &[u8], n: usize) -> &[u8] {
    s.get(..n).unwrap_or(s)
}

#[derive(Clone, Copy)]
pub struct Page {
    pub text: [u8; 65536],
    pub place: usize,
}

impl Page {
    fn write(&self, rt: &impl Print) -> io::Result<()> {
        rt.write_all(front(&self.text, self.place))
    }

    pub(crate) fn word(&mut self, word: &[u8]) {
        let next = apdu_text::append_word(word, &mut self.text, self.place);
        self.place = next.unwrap_or(self.place);
    }

    pub(crate) fn heading(&mut self) {
        let next = apdu_text::append_heading(&mut self.text, self.place);
        self.place = next.unwrap_or(self.place);
    }

    // The number of a line and a space; the text before it is written first where a line may have no room.
    pub(crate) fn number(&mut self, rt: &impl Print, number: u64) -> io::Result<()> {
        if self.text.len().saturating_sub(self.place) < LONGEST_TEXT {
            self.write(rt)?;
            self.place = 0;
        }
        let next = apdu_text::append_decimal(number, &mut self.text, self.place);
        self.place = next.unwrap_or(self.place);
        self.word(b" ");
        Ok(())
    }

    pub(crate) fn refusal(&mut self, refusal: u8, position: usize) {
        let next = apdu_text::append_refusal(refusal, position, &mut self.text, self.place);
        self.place = next.unwrap_or(self.place);
        self.word(b"\n");
    }

    pub(crate) fn message(&mut self, message: Message, lists: Lists, octets: &[u8]) {
        let next = apdu_text::append_message(
            message,
            lists.rows,
            lists.entries,
            octets,
            &mut self.text,
            self.place,
        );
        self.place = next.unwrap_or(self.place);
        self.word(b"\n");
    }

    // Writes the text and the totals behind it.
    pub(crate) fn totals(
        &mut self,
        rt: &impl Print,
        messages: u64,
        refused: u64,
        same: u64,
    ) -> io::Result<()> {
        self.write(rt)?;
        let next = apdu_text::append_totals(messages, refused, same, &mut self.text, 0);
        self.place = next.unwrap_or(0);
        self.write(rt)
    }
}
