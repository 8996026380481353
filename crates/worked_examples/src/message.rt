// 01, "Messages": `message OCTETS: KIND to END, again OCTETS`, END being the bit place behind the message and the octets what writing the record gives;
// or `refused-N at POSITION`.
use crate::print::{decimal, octets, refused, text};
use apdu::{Entry, Message};
use apdu_reading::Answer;
use apdu_writing::WriteRefusal;
use std::io;

fn kind(rt: &impl Print, m: Message) -> io::Result<()> {
    let name: &[u8] = match m {
        Message::ActionRequest(_) => b"action-request",
        Message::ActionResponse(_) => b"action-response",
        Message::EventRequest(_) => b"event-request",
        Message::EventResponse(_) => b"event-response",
        Message::SetRequest(_) => b"set-request",
        Message::SetResponse(_) => b"set-response",
        Message::GetRequest(_) => b"get-request",
        Message::GetResponse(_) => b"get-response",
        Message::Bst(_) => b"bst",
        Message::Vst(_) => b"vst",
    };
    text(rt, name)
}

fn entry(rt: &impl Print, e: Entry) -> io::Result<()> {
    text(rt, b", first application ")?;
    decimal(rt, u64::from(e.aid))?;
    text(rt, b" of element ")?;
    decimal(rt, u64::from(e.eid))?;
    text(rt, b", mark of ")?;
    decimal(rt, u64::from(e.n))?;
    text(rt, b" octets at ")?;
    decimal(rt, u64::from(e.start))?;
    Ok(())
}

// What the record is written as, from its front on.
fn again(rt: &impl Print, written: Result<usize, WriteRefusal>, out: &[u8]) -> io::Result<()> {
    text(rt, b", again")?;
    match written {
        Ok(n) => octets(rt, out.get(..n).unwrap_or(out)),
        Err(_) => text(rt, b" refused"),
    }
}

fn read(rt: &impl Print, s: &[u8]) -> io::Result<()> {
    text(rt, b"message")?;
    octets(rt, s)?;
    text(rt, b": ")?;
    let r = apdu_reading::read(s);
    let answer = r.answer;
    let lists = r.lists;
    let first = lists.entries[0];
    let rows = lists.rows;
    let entries = lists.entries;
    let mut out = [0u8; 512];
    match answer {
        Answer::Message(m) => {
            kind(rt, m)?;
            text(rt, b" to ")?;
            decimal(rt, r.end as u64)?;
            if first.has_parameter {
                entry(rt, first)?;
            }
            again(rt, apdu_writing::write(m, rows, entries, s, &mut out), &out)?;
        }
        Answer::Refused(number, position) => {
            refused(rt, number)?;
            text(rt, b" at ")?;
            decimal(rt, position as u64)?;
        }
    }
    text(rt, b"\n")?;
    Ok(())
}

pub(crate) fn run(rt: &impl Print) -> io::Result<()> {
    // 01's cases
    read(rt, &[0x05, 0x00, 0x0F, 0x02, 0x00])?;
    read(rt, &[0x14, 0x00, 0x02, 0x00])?;
    read(rt, &[0x20, 0x00, 0x00])?;
    read(rt, &[0x20, 0x00])?;
    read(rt, &[0x20, 0x00, 0x00, 0x00])?;
    read(rt, &[0x20, 0x80, 0x00])?;
    read(rt, &[0xA0])?;
    let none = [0u8; 0];
    read(rt, &none)?;
    read(
        rt,
        &[
            0x90, 0x00, 0x01, 0xC1, 0x01, 0x02, 0x06, 0x11, 0x22, 0x33, 0x44, 0x55, 0x66, 0x80,
            0x01, 0x00, 0x05, 0x80, 0x00,
        ],
    )?;
    // a kind that is not read; a count above 16; a string cut short
    read(rt, &[0x05, 0x00, 0x0F, 0x03])?;
    read(rt, &[0x62, 0x01, 0x11])?;
    read(rt, &[0x05, 0x00, 0x0F, 0x02, 0x03, 0xAA, 0xBB])?;
    Ok(())
}
