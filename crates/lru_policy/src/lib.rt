// LRU: of the pages held, the one that was loaded or hit longest ago goes first.
#![tactic(auto)]

ghost use Rattle.std.specs.Prelude.{IfOk};
ghost use Rattle.policy.specs.Histories.{uses, GivesEarliest};
ghost use Rattle.policy.specs.Laws.{AsMade};
ghost use Rattle.lru_policy.specs.Lru.{lru};

use line::line::Line;
use line::renewal::ByUse;
use ordered::ordered::Ordered;
use std::alloc::{AllocError, Global};

pub type Lru = Ordered<Line<ByUse>>;

// A cleared LRU. This takes its memory, and no later call takes any.
// It is `line::make` under the policy's own name, with the law in its own words.
pub fn make(heap: Global) -> Result<Lru, AllocError>
    ensures made { IfOk result (λ f. AsMade lru tt f) }
    ensures earliest { GivesEarliest lru uses }
{
    line::make(heap, ByUse)
}
