// 01, "Messages": writing. `write LABEL into N: OCTETS` gives all N octets of the output afterwards, which were FF; or `refused-N`, with 21 `at 512`.
ghost use Rattle.std.specs.Prelude.{◌^◌, ◌<◌};

use crate::print::{decimal, octets, refused, text};
use apdu::{Entry, Lists, Message, Request, Row, SetRequest, Vst};
use apdu_writing::WriteRefusal;
use refusals::Refusal;
use std::io;

fn write(
    rt: &impl Print,
    label: &[u8],
    m: Message,
    lists: Lists,
    lent: &[u8],
    out: &mut [u8],
) -> io::Result<()> {
    text(rt, b"write ")?;
    text(rt, label)?;
    text(rt, b" into ")?;
    decimal(rt, out.len() as u64)?;
    text(rt, b":")?;
    match apdu_writing::write(m, lists.rows, lists.entries, lent, out) {
        Ok(_) => octets(rt, out)?,
        Err(WriteRefusal::RecordOutOfRange) => {
            text(rt, b" ")?;
            refused(rt, u8::from(Refusal::RecordOutOfRange))?;
        }
        Err(WriteRefusal::MessageTooLong(position)) => {
            text(rt, b" ")?;
            refused(rt, u8::from(Refusal::ApduTooLong))?;
            text(rt, b" at ")?;
            decimal(rt, position as u64)?;
        }
        Err(WriteRefusal::OutputTooSmall) => {
            text(rt, b" ")?;
            refused(rt, u8::from(Refusal::OutputTooSmall))?;
        }
    }
    text(rt, b"\n")?;
    Ok(())
}

// An event request; what is absent holds numbers that no message could carry.
fn release(eid: u64) -> Request {
    Request {
        mode: false,
        eid,
        service: 0,
        has_credentials: false,
        credentials: 9999,
        credentials_length: 255,
        has_parameter: false,
        kind: 200,
        n: 200,
        start: 9999,
        rows: 40,
        has_iid: false,
        iid: 4096,
    }
}

// An ECHO request whose string has n octets from bit place `start` of the lent ones on.
fn echo(kind: u64, n: u64, start: usize) -> Request {
    Request {
        mode: true,
        eid: 0,
        service: 15,
        has_credentials: false,
        credentials: 0,
        credentials_length: 0,
        has_parameter: true,
        kind,
        n,
        start,
        rows: 0,
        has_iid: false,
        iid: 0,
    }
}

fn no_lists() -> Lists {
    Lists {
        entries: apdu::no_entries(),
        rows: apdu::no_rows(),
    }
}

// A VST of two applications: the first without a parameter, though it counts rows; the second with the only row that there is.
fn two_applications() -> Vst {
    Vst {
        fill: 0,
        profile: 0,
        applications: 2,
        class: 1,
        maker: 5,
        has_status: false,
        status: 99999,
    }
}

fn their_lists(rows: u8) -> Lists {
    let mut entries = apdu::no_entries();
    entries[0] = Entry {
        has_eid: false,
        has_parameter: false,
        aid: 1,
        eid: 200,
        kind: 9,
        n: 1,
        start: 9999,
        rows,
    };
    entries[1] = Entry {
        has_eid: true,
        has_parameter: true,
        aid: 2,
        eid: 3,
        kind: 9,
        n: 1,
        start: 0,
        rows: 1,
    };
    let mut table = apdu::no_rows();
    table[0] = Row {
        id: 5,
        kind: 2,
        n: 2,
        start: 0,
    };
    Lists {
        entries,
        rows: table,
    }
}

// A SET of 16 attributes, the first of which is a list of 16: 32 rows, and so many are said to be there.
fn set_of(rows: usize) -> SetRequest {
    SetRequest {
        fill: 0,
        mode: true,
        eid: 1,
        has_credentials: false,
        credentials: 0,
        credentials_length: 0,
        count: 16,
        rows,
        has_iid: false,
        iid: 0,
    }
}

// Those 32 rows; and beside them two entries, of which the first has all rows and the second, a string, says that it has so many.
fn full_lists(rows: u8) -> Lists {
    let mut table = [Row {
        id: 1,
        kind: 7,
        n: 1,
        start: 0,
    }; 32];
    table[0] = Row {
        id: 1,
        kind: 9,
        n: 16,
        start: 0,
    };
    let mut entries = apdu::no_entries();
    entries[0] = Entry {
        has_eid: false,
        has_parameter: true,
        aid: 1,
        eid: 0,
        kind: 9,
        n: 16,
        start: 0,
        rows: 32,
    };
    entries[1] = Entry {
        has_eid: false,
        has_parameter: true,
        aid: 2,
        eid: 0,
        kind: 2,
        n: 2,
        start: 0,
        rows,
    };
    Lists {
        entries,
        rows: table,
    }
}

// Writes the message to an output of N octets, each FF before.
fn into<const N: usize>(rt: &impl Print, label: &[u8], m: Message, lists: Lists) -> io::Result<()>
    requires { N < 2 ^ 32 }
{
    let lent = [0x41u8, 0x42];
    let mut out = [0xFFu8; N];
    write(rt, label, m, lists, &lent, &mut out)?;
    Ok(())
}

pub(crate) fn run(rt: &impl Print) -> io::Result<()> {
    // absent fields are passed over, whatever they hold; the rest of the output stays
    into::<5>(
        rt,
        b"release",
        Message::EventRequest(release(0)),
        no_lists(),
    )?;
    into::<5>(
        rt,
        b"release to eid 127",
        Message::EventRequest(release(127)),
        no_lists(),
    )?;
    into::<5>(
        rt,
        b"release to eid 128",
        Message::EventRequest(release(128)),
        no_lists(),
    )?;
    into::<5>(
        rt,
        b"echo of both octets",
        Message::ActionRequest(echo(2, 2, 0)),
        no_lists(),
    )?;
    into::<8>(
        rt,
        b"echo of both octets",
        Message::ActionRequest(echo(2, 2, 0)),
        no_lists(),
    )?;
    into::<8>(
        rt,
        b"echo from bit 4",
        Message::ActionRequest(echo(2, 1, 4)),
        no_lists(),
    )?;
    into::<8>(
        rt,
        b"echo of an octet too many",
        Message::ActionRequest(echo(2, 3, 0)),
        no_lists(),
    )?;
    into::<8>(
        rt,
        b"empty echo at the end",
        Message::ActionRequest(echo(2, 0, 16)),
        no_lists(),
    )?;
    into::<8>(
        rt,
        b"empty echo behind the end",
        Message::ActionRequest(echo(2, 0, 17)),
        no_lists(),
    )?;
    into::<8>(
        rt,
        b"parameter of kind 3",
        Message::ActionRequest(echo(3, 0, 0)),
        no_lists(),
    )?;
    into::<20>(
        rt,
        b"vst with an absent parameter of 0 rows",
        Message::Vst(two_applications()),
        their_lists(0),
    )?;
    into::<20>(
        rt,
        b"vst with an absent parameter of 1 row",
        Message::Vst(two_applications()),
        their_lists(1),
    )?;
    into::<20>(
        rt,
        b"vst with an absent parameter of 255 rows",
        Message::Vst(two_applications()),
        their_lists(255),
    )?;
    // 32 rows and no more, summed over the entries
    into::<112>(
        rt,
        b"set of 32 rows",
        Message::SetRequest(set_of(32)),
        full_lists(0),
    )?;
    into::<112>(
        rt,
        b"set of 33 rows",
        Message::SetRequest(set_of(33)),
        full_lists(0),
    )?;
    into::<112>(
        rt,
        b"vst of 32 and 0 rows",
        Message::Vst(two_applications()),
        full_lists(0),
    )?;
    into::<112>(
        rt,
        b"vst of 32 and 1 rows",
        Message::Vst(two_applications()),
        full_lists(1),
    )?;
    Ok(())
}
