// CLOCK: a page that was hit since it was loaded or last passed over is passed over; the first that
// was not goes.
#![tactic(auto)]

ghost use Rattle.std.specs.Prelude.{IfOk};
ghost use Rattle.policy.specs.Laws.{AsMade};
ghost use Rattle.clock.specs.Clock.{clock, ClockLaws};

use marked_queue::MarkedQueue;
use ordered::ordered::Ordered;
use std::alloc::{AllocError, Global};

pub mod marked_queue;

pub type Clock = Ordered<MarkedQueue>;

// A cleared CLOCK. This takes its memory, and no later call takes any. It is one line, as
// `line::make` is: what the two promise differs.
#[tactic(auto, using(crate::proofs::ClockLaws::clock_laws))]
pub fn make(heap: Global) -> Result<Clock, AllocError>
    ensures made { IfOk result (λ f. AsMade clock tt f) }
    ensures laws { ClockLaws }
{
    Ok(Ordered::new(MarkedQueue::new(heap)?))
}
