// The checks that the calls of a policy share. They are two functions: one for both would take the
// wanted answer and the fault besides, and each call would have to name the right pair.
ghost use Rattle.std.specs.Prelude.{◌≡◌};
ghost use Rattle.policy.specs.Model.{answer, absent_check, held_check};

use crate::fault::PolicyFault;
use crate::limits::PAGES;

// Refuses what is no page, and what is held.
pub fn check_absent(page: u32, held: bool) -> Result<(), PolicyFault>
    ensures { result ≡ answer (absent_check page held) }
{
    if page >= PAGES {
        return Err(PolicyFault::NotAPage);
    }
    if held {
        return Err(PolicyFault::AlreadyHeld);
    }
    Ok(())
}

// Refuses what is no page, and what is not held.
pub fn check_held(page: u32, held: bool) -> Result<(), PolicyFault>
    ensures { result ≡ answer (held_check page held) }
{
    if page >= PAGES {
        return Err(PolicyFault::NotAPage);
    }
    if !held {
        return Err(PolicyFault::NotHeld);
    }
    Ok(())
}
