// The return status of a reply.
ghost use Rattle.std.specs.Prelude.{◌≡◌};
ghost use Rattle.attributes.specs.Inside.{number_of};

// 01's statuses other than 0.
#[derive(Clone, Copy, Debug, PartialEq, Eq)]
pub(crate) enum Status {
    AccessDenied = 1,
    ArgumentError = 2,
    ComplexityLimitation = 3,
}

impl From<Status> for u64 {
    ghost from_gives = { λ status number. number ≡ number_of status };

    fn from(status: Status) -> u64 {
        status as u64
    }
}
