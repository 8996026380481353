// The credentials of a request beside those of the tag.
ghost use Rattle.std.specs.Prelude.{◌≡◌};
ghost use Rattle.attributes.specs.Serving.{exact};

// Whether the request carries exactly the tag's credentials: `n` octets from bit place `start`, if they are given.
#[tactic(auto, unfolding(crate::specs::Serving::exact))]
pub(crate) fn are_exact(s: &[u8], credentials: &[u8], given: bool, start: usize, n: u64) -> bool
    ensures { result ≡ exact s.now credentials.now given start n }
{
    let octets = n as usize;
    given && octets == credentials.len() && bits::same_string(s, start, credentials, 0, octets)
}
