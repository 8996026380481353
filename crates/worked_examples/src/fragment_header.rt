// 01, "Fragment header": `read OCTETS: ANSWER`, and `write LAST NUMBER COUNTER into ROOM: ANSWER`.
use crate::print::{decimal, octets, refused, text};
use header::{Header, HeaderRead};
use std::io;

fn mark(rt: &impl Print, last: bool) -> io::Result<()> {
    if last {
        text(rt, b"yes ")?;
    } else {
        text(rt, b"no ")?;
    }
    Ok(())
}

fn read(rt: &impl Print, s: &[u8]) -> io::Result<()> {
    text(rt, b"read")?;
    octets(rt, s)?;
    text(rt, b": ")?;
    match header::read(s) {
        Ok(HeaderRead { header, size }) => {
            mark(rt, header.last)?;
            decimal(rt, u64::from(header.number))?;
            text(rt, b" ")?;
            decimal(rt, u64::from(header.counter))?;
            text(rt, b" ")?;
            decimal(rt, size as u64)?;
            text(rt, b"\n")?;
        }
        Err(refusal) => {
            refused(rt, u8::from(refusal))?;
            text(rt, b"\n")?;
        }
    }
    Ok(())
}

// Octets of FF show what is not written.
fn write(rt: &impl Print, last: bool, number: u8, counter: u32, out: &mut [u8]) -> io::Result<()> {
    text(rt, b"write ")?;
    mark(rt, last)?;
    decimal(rt, u64::from(number))?;
    text(rt, b" ")?;
    decimal(rt, u64::from(counter))?;
    text(rt, b" into ")?;
    decimal(rt, out.len() as u64)?;
    text(rt, b": ")?;
    match header::write(
        Header {
            last,
            number,
            counter,
        },
        out,
    ) {
        Ok(n) => {
            decimal(rt, n as u64)?;
            octets(rt, out)?;
            text(rt, b"\n")?;
        }
        Err(refusal) => {
            refused(rt, u8::from(refusal))?;
            text(rt, b"\n")?;
        }
    }
    Ok(())
}

fn write_all(rt: &impl Print, last: bool, number: u8, counter: u32) -> io::Result<()> {
    let mut none = [0u8; 0];
    write(rt, last, number, counter, &mut none)?;
    let mut one = [255u8; 1];
    write(rt, last, number, counter, &mut one)?;
    let mut two = [255u8; 2];
    write(rt, last, number, counter, &mut two)?;
    let mut four = [255u8; 4];
    write(rt, last, number, counter, &mut four)?;
    Ok(())
}

pub(crate) fn run(rt: &impl Print) -> io::Result<()> {
    // 01's cases
    read(rt, &[0x91])?;
    read(rt, &[0x97])?;
    read(rt, &[0x10, 0x09])?;
    read(rt, &[0xFE, 0xFF])?;
    read(rt, &[0x10, 0x08, 0x00])?;
    read(rt, &[0x96, 0xFE, 0xFE])?;
    read(rt, &[0x10, 0x07])?;
    read(rt, &[0x10, 0x06, 0xFE])?;
    // what follows is ignored; numbers 0 and 1 are read
    read(rt, &[0x91, 0xFF, 0xFF])?;
    read(rt, &[0x81])?;
    read(rt, &[0x0F])?;
    // cut short, third octet's bit 0, overlong with counter 0
    let none = [0u8; 0];
    read(rt, &none)?;
    read(rt, &[0x10])?;
    read(rt, &[0x10, 0x08])?;
    read(rt, &[0x10, 0x08, 0x01])?;
    read(rt, &[0x90, 0x01])?;
    read(rt, &[0x10, 0x00, 0x00])?;
    let filled = [0xFFu8; 128];
    read(rt, &filled[..4])?;
    // each length at both its ends
    write_all(rt, true, 2, 0)?;
    write_all(rt, false, 15, 3)?;
    write_all(rt, true, 0, 4)?;
    write_all(rt, false, 1, 511)?;
    write_all(rt, true, 15, 512)?;
    write_all(rt, false, 2, 65535)?;
    // out of range, before the room is looked at
    write_all(rt, true, 16, 0)?;
    write_all(rt, true, 15, 65536)?;
    write_all(rt, false, 255, 4294967295)?;
    Ok(())
}
