// A line, joined.
ghost use Rattle.std.specs.Prelude.{◌≡◌, take};
ghost use Rattle.bench_joining.specs.Joined.{columns_after, LsduJoined, LineTaken};

use crate::Columns;
use crate::answers::{columns, no_octets};
use bench_lines::Line;
use reassembly::Accepted;
use slots::Table;

// The columns of an answer to a fragment, whatever number it refuses with, where `after` is the table after the call.
pub fn shown(answer: Result<Accepted, u8>, lid: u32, lsdu: &[u8], after: Table) -> Columns
    ensures { result ≡ columns_after answer lid lsdu.now after }
{
    // A header that is not valid has no number: what is shown is then that of number 0 and no payload.
    let (number, payload) = match header::read(lsdu) {
        Ok(read) => (read.header.number, lsdu.len() - read.size),
        Err(_) => (0, 0),
    };
    let held = reassembly::held_for(after, lid, number);
    columns(answer, held, payload)
}

// The fragment call for one LSDU.
fn join(
    lid: u32,
    tick: u32,
    lsdu: &[u8],
    table: &mut Table,
    store: &mut [u8],
    output: &mut [u8],
) -> Columns
    ensures { LsduJoined lid tick lsdu.now table.old store.old output.old result table.new store.new output.new }
{
    let answer = reassembly::fragment(lid, tick, lsdu, table, store, output);
    shown(answer.map_err(u8::from), lid, lsdu, *table)
}

// The first `n` octets, or all where there are fewer.
pub fn front(s: &[u8], n: usize) -> &[u8]
    ensures { result.now ≡ take n s.now }
{
    s.get(..n).unwrap_or(s)
}

// One line, whose LSDU is read into `lsdu`: a line not of 01's form goes no further.
pub fn take_line(
    line: &[u8],
    table: &mut Table,
    lsdu: &mut [u8],
    store: &mut [u8],
    output: &mut [u8],
) -> Columns
    ensures { LineTaken line.now table.old lsdu.old store.old output.old result table.new lsdu.new store.new output.new }
{
    match bench_lines::read_line(line, lsdu) {
        Ok(Line { lid, tick, octets }) => {
            join(lid, tick, front(lsdu, octets), table, store, output)
        }
        Err(refusal) => no_octets(u8::from(refusal), 0),
    }
}
