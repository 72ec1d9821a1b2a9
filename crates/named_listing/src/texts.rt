// From the text of a trace to the text of its answers.
ghost use Rattle.std.specs.Prelude.{◌≡◌, IfOk, IfSome, string_bytes};
ghost use Rattle.listing.specs.Faults.{told_of};
ghost use Rattle.named_listing.specs.Listing.{played_behind, played_named, listing_of};

use crate::name::{PolicyName, first_space};
use front_queue::front_queue::FrontQueue;
use listing::fault::TextFault;
use listing::listing::{play_over, settings_with, told};
use listing::read::numbers_behind;
use policy::policy::Policy;
use settings::settings::Settings;
use std::alloc::{AllocError, Global};

// Plays the pages over a policy with a front queue before it. Settings and pages stay two
// parameters, as in `play_over`.
fn play_behind<P: Policy + Drop>(
    heap: Global,
    settings: Settings,
    below: P,
    pages: &[u32],
) -> Result<String, AllocError>
    ensures { IfOk result (λ s. string_bytes s ≡ played_behind P.model (P.model.setting below) settings.front settings.frames pages.now) }
{
    let policy = FrontQueue::new(heap, settings, below)?;
    play_over(heap, settings, policy, pages)
}

// The same over the policy that was named, with the same parameters. The names are a closed few, so
// it is a match, and no `dyn` of an open kind.
fn play_named(
    heap: Global,
    name: PolicyName,
    settings: Settings,
    pages: &[u32],
) -> Result<String, AllocError>
    ensures { IfOk result (λ s. string_bytes s ≡ played_named name settings.front settings.frames pages.now) }
{
    match name {
        PolicyName::Fifo => play_behind(heap, settings, fifo::make(heap)?, pages),
        PolicyName::Lru => play_behind(heap, settings, lru_policy::make(heap)?, pages),
        PolicyName::Clock => play_behind(heap, settings, clock::make(heap)?, pages),
    }
}

// Plays a text over the policy that its first word names. The first number is the number of frames,
// the second the size of the front queue, and the others are pages. (A text over FIFO has a function
// of its own: its head differs, and what it plays, and the rest is calls that both share.)
fn played(heap: Global, text: &[u8]) -> Result<String, TextFault>
    ensures { IfSome (told_of result) (λ bs. bs ≡ listing_of text.now) }
{
    let end = first_space(text);
    let name = PolicyName::try_from(&text[..end])?;
    let numbers = numbers_behind(heap, text, end)?;
    let [frames, front, pages @ ..] = numbers.as_slice() else {
        return Err(TextFault::TooFewNumbers);
    };
    let settings = settings_with(*frames, *front)?;
    Ok(play_named(heap, name, settings, pages)?)
}

// The lines that a text asks for. This is the one line that both kinds of text have alike.
pub fn listing(heap: Global, text: &[u8]) -> Result<String, AllocError>
    ensures { IfOk result (λ s. string_bytes s ≡ listing_of text.now) }
{
    told(heap, played(heap, text))
}
