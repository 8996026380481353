// One line of a recording through the joining, and the line that the bench prints of it.
ghost use Rattle.std.specs.Prelude.{◌≡◌, ◌≤◌, length};
ghost use Rattle.bench_lines.specs.Text.{answer_text, written};
ghost use Rattle.exports.specs.BenchLine.{text_octets, output_line, BenchLineExported, RoomForEach};
ghost use Rattle.exports.specs.Putting.{LsduPut, LinePut};

use crate::fragments::joined;
use crate::refused::refused;
use bench_joining::{Columns, front, no_octets, shown};
use bench_lines::Line;
use refusals::Refusal;
use words::{packed, table_in};

// The octets of a line of output: more than any has.
const TEXT_OCTETS: usize = 128;

// The fragment call for a line's LSDU, and what to show of it.
fn join(
    lid: u32,
    tick: u32,
    lsdu: &[u8],
    table: &mut [u32],
    store: &mut [u8],
    out: &mut [u8],
) -> Columns
    ensures { LsduPut lid tick lsdu.now table.old store.old out.old result table.new store.new out.new }
{
    let answer = joined(store, out, lsdu, table, lid, tick);
    shown(answer.map_err(u8::from), lid, lsdu, table_in(table))
}

// Takes a line; its LSDU has room in 300 octets.
fn take(line: &[u8], table: &mut [u32], store: &mut [u8], out: &mut [u8]) -> Columns
    ensures { LinePut line.now table.old store.old out.old result table.new store.new out.new }
{
    let mut lsdu = [0u8; 300];
    match bench_lines::read_line(line, &mut lsdu) {
        Ok(Line { lid, tick, octets }) => {
            join(lid, tick, front(&lsdu, octets), table, store, out)
        }
        Err(refusal) => no_octets(u8::from(refusal), 0),
    }
}

// Writes a line of output to the front of `text` and answers how many octets it has.
fn show(number: u64, columns: Columns, text: &mut [u8]) -> usize
    requires { (text_octets ≤ length text.old) × (length (answer_text columns.answer) ≤ 29) }
    ensures { (result ≡ length (output_line number columns)) × (text.new ≡ written text.old 0 (output_line number columns)) × (result ≤ text_octets) }
{
    bench_lines::append_answer(
        number,
        columns.answer,
        columns.octets,
        columns.dropped,
        text,
        0,
    )
    .unwrap_or(0)
}

// Takes line `number` of a recording and writes its line of output to the front of `text`: first is how many octets that has. Refused 22, and nothing
// changed, where `text` has fewer than 128 octets.
#[unsafe(no_mangle)]
pub extern "C" fn semuryeon_bench_line(
    number: u64,
    line: &[u8],
    table: &mut [u32],
    store: &mut [u8],
    out: &mut [u8],
    text: &mut [u8],
) -> u64
    ensures answer { BenchLineExported number line.now table.old store.old out.old text.old result table.new store.new out.new text.new }
    ensures room { RoomForEach }
{
    if text.len() < TEXT_OCTETS {
        return refused(Refusal::OutputTooSmall);
    }
    let columns = take(line, table, store, out);
    packed(0, 0, show(number, columns, text), 0)
}
