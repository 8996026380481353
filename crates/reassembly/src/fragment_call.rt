// The fragment call: checks 1 to 12 in their order, then the fragment is taken.
ghost use Rattle.std.specs.Prelude.{◌≡◌, false};
ghost use Rattle.refusals.specs.Check.{pick};
ghost use Rattle.refusals.specs.Refusal.{refused_by};
ghost use Rattle.slots.specs.Slots.{free, is_busy};
ghost use Rattle.reassembly.specs.Asked.{fields_in, asked};
ghost use Rattle.reassembly.specs.Checks.{fragment_in};
ghost use Rattle.reassembly.specs.Engine.{facts_from, ChangeGives, FragmentGives};
ghost use Rattle.reassembly.specs.Demand3.{Demanded};
ghost use Rattle.reassembly.specs.Runs.{RunsExist};

use crate::accept::accept;
use crate::checks::{check_fragment, check_lsdu};
use crate::{Accepted, Arrival, Change, FragmentRead, PairFacts};
use refusals::Refusal;
use slots::{Slot, Table};

// The fragment of an LSDU, as its header gives it. Refused 5 for a header that is not valid.
fn fragment_in(lsdu: &[u8]) -> Result<FragmentRead, Refusal>
    ensures fields { fields_in result ≡ fragment_in lsdu.now }
    ensures refusal { refused_by result ≡ pick (fragment_in lsdu.now).valid 0 5 }
{
    let read = header::read(lsdu)?;
    Ok(FragmentRead {
        header: read.header,
        octets: lsdu.len() - read.size,
    })
}

// The facts of a pair, whose slot this is: a free one if it is not open.
fn facts_of(slot: Slot, table: Table) -> PairFacts
    requires { is_busy slot ≡ false → slot ≡ free }
    ensures { asked result ≡ facts_from slot table }
{
    PairFacts {
        slot: if slot.next != 0 { Some(slot) } else { None },
        full: slots::is_full(table),
    }
}

// One fragment, of which the table is told by the one slot that changes: who keeps the table elsewhere writes that slot alone. Store and output are as after
// `fragment`.
pub fn fragment_change(
    lid: u32,
    tick: u32,
    lsdu: &[u8],
    table: Table,
    store: &mut [u8],
    output: &mut [u8],
) -> Result<Change, Refusal>
    ensures { ChangeGives lid tick lsdu.now table store.old output.old result store.new output.new }
{
    check_lsdu(
        store.len(),
        output.len(),
        slots::sound(table),
        lid,
        lsdu.len(),
    )?;
    let fragment = fragment_in(lsdu)?;
    let header = fragment.header;
    let number = header.number;
    let index = slots::find(table, lid, number);
    let slot = slots::slot_at(table, index);
    check_fragment(fragment, facts_of(slot, table))?;
    let start = lsdu.len() - fragment.octets;
    let payload = &lsdu[start..];
    let arrival = Arrival {
        lid,
        number,
        tick,
        last: header.last,
        begins: header.counter == 0,
        index,
    };
    let lowest = slots::lowest_free(table);
    Ok(accept(arrival, slot, lowest, payload, store, output))
}

// One fragment: held, or delivered to the front of `output` with the payloads before it, or refused 1 to 12. A refusal changes nothing.
pub fn fragment(
    lid: u32,
    tick: u32,
    lsdu: &[u8],
    table: &mut Table,
    store: &mut [u8],
    output: &mut [u8],
) -> Result<Accepted, Refusal>
    ensures demand { Demanded }
    ensures answer { FragmentGives lid tick lsdu.now table.old store.old output.old result table.new store.new output.new }
    ensures runs { RunsExist }
{
    let change = fragment_change(lid, tick, lsdu, *table, store, output)?;
    *table = slots::with_slot(*table, change.index, change.slot);
    Ok(change.accepted)
}
