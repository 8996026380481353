// Joining: the table lives in 41 words, all zero at first, and the store and output are lent.
ghost use Rattle.std.specs.Prelude.{◌≡◌};
ghost use Rattle.exports.specs.ExportedRuns.{ExportedDemand, ExportedRunsExist};
ghost use Rattle.exports.specs.Fragments.{fragment_number, FragmentExported, ExpiryExported, ReleaseExported};
ghost use Rattle.exports.specs.Putting.{FragmentPut, SweepPut};

use crate::refused::refused;
use reassembly::Accepted;
use refusals::Refusal;
use slots::Table;
use words::{packed, put_change, put_table, table_in};

fn fragment_number(answer: Result<Accepted, Refusal>) -> u64
    ensures { result ≡ fragment_number answer }
{
    match answer {
        Ok(Accepted::Held { octets, dropped }) => packed(0, 1, octets, dropped),
        Ok(Accepted::Whole { octets, dropped }) => packed(0, 2, octets, dropped),
        Err(refusal) => refused(refusal),
    }
}

// One fragment over the table's words. The exported calls that join share it, so that the fragment call has one caller here and is inlined. The slices that come
// last to an exported call, on the stack, come first here: so they go on in registers, one by one.
pub(crate) fn joined(
    store: &mut [u8],
    out: &mut [u8],
    lsdu: &[u8],
    table: &mut [u32],
    lid: u32,
    tick: u32,
) -> Result<Accepted, Refusal>
    ensures { FragmentPut lid tick lsdu.now table.old store.old out.old result table.new store.new out.new }
{
    let change = reassembly::fragment_change(lid, tick, lsdu, table_in(table), store, out)?;
    put_change(change.index, change.slot, table);
    Ok(change.accepted)
}

// One fragment: kind 1 is held, 2 whole; first the octets held or delivered, second those dropped. Refused 1 to 12.
#[unsafe(no_mangle)]
pub extern "C" fn semuryeon_fragment(
    lid: u32,
    tick: u32,
    lsdu: &[u8],
    table: &mut [u32],
    store: &mut [u8],
    out: &mut [u8],
) -> u64
    ensures answer { FragmentExported lid tick lsdu.now table.old store.old out.old result table.new store.new out.new }
    ensures demand { ExportedDemand }
    ensures runs { ExportedRunsExist }
{
    fragment_number(joined(store, out, lsdu, table, lid, tick))
}

// Puts the table that a sweep leaves; after a refusal the words stay as they were.
fn swept(answer: Result<usize, Refusal>, after: Table, table: &mut [u32]) -> u64
    ensures { SweepPut table.old answer after result table.new }
{
    match answer {
        Ok(octets) => {
            put_table(after, table);
            packed(0, 0, octets, 0)
        }
        Err(refusal) => refused(refusal),
    }
}

// Frees each slot whose age is at least the limit: first is how many octets were dropped. Refused 2.
#[unsafe(no_mangle)]
pub extern "C" fn semuryeon_expire(tick: u32, limit: u32, table: &mut [u32]) -> u64
    ensures { ExpiryExported tick limit table.old result table.new }
{
    let mut after = table_in(table);
    let answer = slots::expire(&mut after, tick, limit);
    swept(answer, after, table)
}

// Frees each slot of a LID: first is how many octets were dropped. Refused 2, 3.
#[unsafe(no_mangle)]
pub extern "C" fn semuryeon_release(lid: u32, table: &mut [u32]) -> u64
    ensures { ReleaseExported lid table.old result table.new }
{
    let mut after = table_in(table);
    let answer = slots::release(&mut after, lid);
    swept(answer, after, table)
}
