// Whole traces.
ghost use Rattle.std.specs.Prelude.{◌≡◌, IfOk};
ghost use Rattle.run.specs.Run.{opened, run_after, answers};
ghost use Rattle.run.specs.Answers.{counted};
ghost use Rattle.run.specs.Laws.{RunLaws};

use crate::answer::{Answer, Event};
use crate::open::OpenRun;
use policy::policy::Policy;
use settings::settings::Settings;
use std::alloc::{AllocError, Global};

// The answers of a trace, one for each event, and the run after it.
#[derive(Drop)]
pub struct Played<P: Policy> {
    pub answers: Vec<Answer>,
    pub run: OpenRun<P>,
}

// Opens a run and performs each of the events.
pub fn play<P: Policy + Drop>(
    heap: Global,
    settings: Settings,
    policy: P,
    events: &[Event],
) -> Result<Played<P>, AllocError>
    ensures answers { IfOk result (λ d. d.answers.items ≡ answers P.model (opened P.model settings.frames policy) events.now) }
    ensures after { IfOk result (λ d. d.run ≡ run_after P.model (opened P.model settings.frames policy) events.now) }
    ensures laws { RunLaws P.model }
    ensures figures { IfOk result (λ d. d.run.figures ≡ counted d.answers.items) }
{
    let mut answers = Vec::with_capacity(heap, events.len())?;
    let mut run = OpenRun::open(settings, policy);
    // Not a chain: of a run that a closure changes, the proof would know nothing.
    for &event in events {
        answers.push_reserved(run.perform(event));
    }
    Ok(Played { answers, run })
}
