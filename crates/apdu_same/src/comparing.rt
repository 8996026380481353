// Comparing two messages.
ghost use Rattle.std.specs.Prelude.{◌≡◌};
ghost use Rattle.refusals.specs.Refusal.{answer_of};
ghost use Rattle.apdu_same.specs.Comparison.{same_answer, SameExactly, SameRecords};

use crate::message::agree;
use apdu::{Entry, Message, Row};
use refusals::Refusal;

// Whether two messages are the same: all fields that are present agree, and the octets of the strings, wherever these stand. 23 where either record breaks
// a range, a limit or a depth of what is present, or has a part outside its lent octets.
pub fn same(
    a: Message,
    a_rows: [Row; 32],
    a_entries: [Entry; 32],
    a_lent: &[u8],
    b: Message,
    b_rows: [Row; 32],
    b_entries: [Entry; 32],
    b_lent: &[u8],
) -> Result<bool, Refusal>
    ensures answer { answer_of result ≡ same_answer a_lent.now a a_entries a_rows b_lent.now b b_entries b_rows }
    ensures exactly { SameExactly }
    ensures records { SameRecords }
{
    if !apdu_writing::well_formed(a, a_rows, a_entries, a_lent)
        || !apdu_writing::well_formed(b, b_rows, b_entries, b_lent)
    {
        return Err(Refusal::RecordOutOfRange);
    }
    Ok(agree(a_lent, a, a_entries, a_rows, b_lent, b, b_entries, b_rows))
}
