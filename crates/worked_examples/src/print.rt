// What the cases print with.
use std::io;

pub(crate) fn text(rt: &impl Print, s: &[u8]) -> io::Result<()> {
    rt.write_all(s)
}

pub(crate) fn decimal(rt: &impl Print, n: u64) -> io::Result<()> {
    print!(rt; "{n}")
}

pub(crate) fn octets(rt: &impl Print, s: &[u8]) -> io::Result<()> {
    for o in s {
        print!(rt; " {o:02x}")?;
    }
    Ok(())
}

pub(crate) fn refused(rt: &impl Print, number: u8) -> io::Result<()> {
    text(rt, b"refused-")?;
    decimal(rt, u64::from(number))
}
