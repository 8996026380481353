// What a line of output shows of a fragment call's answer.
ghost use Rattle.std.specs.Prelude.{◌≡◌};
ghost use Rattle.bench_joining.specs.Columns.{columns_of, refused_columns, refused_with};

use crate::Columns;
use bench_lines::BenchAnswer;
use reassembly::Accepted;
use refusals::Refusal;

// The first refusal of a fragment that has a pair: from there on the octets held for the pair are shown.
const FIRST_WITH_PAIR: Refusal = Refusal::NoPayload;

// The columns of an answer, whatever number it refuses with, where `held` octets are held for the pair after the call, and the fragment has `payload` octets.
#[tactic(auto, unfolding(crate::specs::Columns::columns_of))]
pub(crate) fn columns(answer: Result<Accepted, u8>, held: usize, payload: usize) -> Columns
    ensures { result ≡ columns_of answer held payload }
{
    match answer {
        Ok(Accepted::Held { octets, dropped }) => Columns {
            answer: BenchAnswer::Held,
            octets: octets as u64,
            dropped: dropped as u64,
            accepted: payload as u64,
            delivered: 0,
        },
        Ok(Accepted::Whole { octets, dropped }) => Columns {
            answer: BenchAnswer::Whole,
            octets: octets as u64,
            dropped: dropped as u64,
            accepted: payload as u64,
            delivered: octets as u64,
        },
        Err(number) => refused(number, held),
    }
}

#[tactic(auto, using(std::proofs::lemmas::Bool::Decides::nat_tests), unfolding(crate::specs::Columns::refused_columns))]
fn refused(number: u8, held: usize) -> Columns
    ensures { result ≡ refused_columns number held }
{
    let has_pair = u8::from(FIRST_WITH_PAIR) <= number;
    no_octets(number, if has_pair { held } else { 0 })
}

// The columns of a refusal.
#[tactic(auto, unfolding(crate::specs::Columns::refused_with))]
pub fn no_octets(number: u8, octets: usize) -> Columns
    ensures { result ≡ refused_with number octets }
{
    Columns {
        answer: BenchAnswer::Refused(number),
        octets: octets as u64,
        dropped: 0,
        accepted: 0,
        delivered: 0,
    }
}
