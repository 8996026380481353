// The answer of a call that is refused.
ghost use Rattle.std.specs.Prelude.{◌≡◌};
ghost use Rattle.refusals.specs.Refusal.{number_of};
ghost use Rattle.exports.specs.Messages.{refusal_number};

use refusals::Refusal;
use words::packed;

pub(crate) fn refused(refusal: Refusal) -> u64
    ensures { result ≡ refusal_number (number_of refusal) }
{
    packed(u8::from(refusal), 0, 0, 0)
}
