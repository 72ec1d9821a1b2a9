// Why a policy refuses a call, each refusal with the number by which it is known.
ghost use Rattle.std.specs.Prelude.{◌≡◌};
ghost use Rattle.policy.specs.Refusals.{number_of};

#[derive(Clone, Copy, PartialEq, Eq, Debug)]
pub enum PolicyFault {
    // The number is 4,096 or more.
    NotAPage = 1,
    // 16,000,000 faults were accepted already.
    TooManyFaults = 2,
    // The page is held.
    AlreadyHeld = 6,
    // The page is not held.
    NotHeld = 7,
    // 1,024 pages are held.
    Full = 8,
}

impl PolicyFault {
    // The number by which the refusal is known. (A run's faults have theirs by a `match`: one of
    // them has a field.)
    pub fn number(self) -> u8
        ensures { result ≡ number_of self }
    {
        self as u8
    }
}
