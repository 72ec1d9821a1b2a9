// What holds of every policy, over whole lists of calls.
ghost use Rattle.policy.specs.Laws.{PolicyLaws};

use crate::policy::Policy;

// A sound standing stays sound, a cleared policy is as a new one, and a refused call changes
// nothing.
pub fn policy_laws<P: Policy>()
    ensures { PolicyLaws P.model }
{}
