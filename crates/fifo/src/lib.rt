// FIFO: of the pages held, the one that was loaded earliest goes first.
#![tactic(auto)]

ghost use Rattle.std.specs.Prelude.{IfOk};
ghost use Rattle.policy.specs.Histories.{loads, GivesEarliest};
ghost use Rattle.policy.specs.Laws.{AsMade};
ghost use Rattle.fifo.specs.Fifo.{fifo};

use line::line::Line;
use line::renewal::ByLoad;
use ordered::ordered::Ordered;
use std::alloc::{AllocError, Global};

pub type Fifo = Ordered<Line<ByLoad>>;

// A cleared FIFO. This takes its memory, and no later call takes any.
// It is `line::make` under the policy's own name, with the law in its own words.
pub fn make(heap: Global) -> Result<Fifo, AllocError>
    ensures made { IfOk result (λ f. AsMade fifo tt f) }
    ensures earliest { GivesEarliest fifo loads }
{
    line::make(heap, ByLoad)
}
