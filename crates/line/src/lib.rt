// An order of pages by when each was loaded, or last used, and policies over it.
#![tactic(auto)]

ghost use Rattle.std.specs.Prelude.{IfOk};
ghost use Rattle.policy.specs.Histories.{loads_or_hits, GivesEarliest};
ghost use Rattle.policy.specs.Laws.{AsMade};
ghost use Rattle.ordered.specs.Ordered.{ordered};
ghost use Rattle.line.specs.Line.{line};

use crate::line::Line;
use crate::renewal::Renewal;
use ordered::ordered::Ordered;
use std::alloc::{AllocError, Global};

pub mod line;
pub mod renewal;

// A cleared policy over a line with the given renewal. This takes its memory, and no later call
// takes any.
pub fn make<R: Renewal + Drop>(heap: Global, renewal: R) -> Result<Ordered<Line<R>>, AllocError>
    ensures made { IfOk result (λ f. AsMade (ordered (line R.renews)) tt f) }
    ensures earliest { GivesEarliest (ordered (line R.renews)) (loads_or_hits R.renews) }
{
    Ok(Ordered::new(Line::new(heap, renewal)?))
}
