// Why a run refuses a call.
ghost use Rattle.std.specs.Prelude.{◌≡◌};
ghost use Rattle.settings.specs.declared.fault.RunFault.TheVariants as refused;
ghost use Rattle.settings.specs.Refusals.{run_number, run_layer};

use policy::fault::PolicyFault;

// The layer that refuses.
#[derive(Clone, Copy, PartialEq, Eq, Debug)]
pub enum Layer {
    Policy,
    Run,
}

#[derive(Clone, Copy, PartialEq, Eq, Debug)]
pub enum RunFault {
    // The number is 4,096 or more.
    NotAPage,
    // 16,000,000 touches were accepted already.
    TooManyTouches,
    // A setting is below its least or above its greatest.
    OutOfRange,
    // The rank of a fault is above the length of a long sequence.
    NthAboveLong,
    // The policy refused.
    Policy(PolicyFault),
}

impl From<PolicyFault> for RunFault {
    ghost from_gives = { λ e r. r ≡ refused.Policy e };

    fn from(e: PolicyFault) -> RunFault {
        RunFault::Policy(e)
    }
}

impl RunFault {
    // The number by which the refusal is known.
    pub fn number(self) -> u8
        ensures { result ≡ run_number self }
    {
        // Not `as u8`, by which the policy's faults are numbered: one variant has a field.
        match self {
            RunFault::NotAPage => 1,
            RunFault::TooManyTouches => 2,
            RunFault::OutOfRange => 3,
            RunFault::NthAboveLong => 4,
            RunFault::Policy(fault) => fault.number(),
        }
    }

    // The layer whose check failed.
    pub fn layer(self) -> Layer
        ensures { result ≡ run_layer self }
    {
        match self {
            RunFault::Policy(_) => Layer::Policy,
            _ => Layer::Run,
        }
    }
}
