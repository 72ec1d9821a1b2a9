// A run that has ended.
ghost use Rattle.std.specs.Prelude.{◌≡◌};

use crate::answer::Figures;
use policy::policy::Policy;

#[derive(Drop)]
pub struct ClosedRun<P> {
    pub(crate) policy: P,
    pub(crate) figures: Figures,
}

impl<P: Policy> ClosedRun<P> {
    // What the run came to.
    pub fn figures(&self) -> Figures
        ensures { result ≡ self.now.figures }
    {
        self.figures
    }

    // The policy, as the run left it, for another run.
    pub fn into_policy(self) -> P
        ensures { result ≡ self.policy }
    {
        self.policy
    }
}
