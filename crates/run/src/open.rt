// A run that takes touches.
ghost use Rattle.std.specs.Prelude.{◌≡◌, ◌<◌, ◌≤◌, length};
ghost use Rattle.run.specs.Run.{opened, hit_answer, hit_after, fault_answer, fault_after, touch_answer, touch_after, release_answer, release_after, event_answer, event_after, sent_out, with_room};
ghost use Rattle.run.specs.Laws.{Within, memory, TouchTold, ReleaseTold, EventTold};
ghost use Rattle.run.specs.Answers.{touched, freed};

use crate::answer::{Answer, Event, Figures, Outcome, Touched};
use crate::closed::ClosedRun;
use policy::limits::{MOST_PAGES, PAGES};
use policy::policy::Policy;
use settings::fault::RunFault;
use settings::settings::Settings;
use std::marker::Model;

// A clause sees the frames, the policy and the figures.
#[derive(Drop)]
pub struct OpenRun<P: Policy> {
    frames: u16,
    policy: P,
    figures: Figures,
}

impl<P: Policy> Model for OpenRun<P> {
    ghost use Rattle.run.specs.Run.{Run, run};
    ghost use Rattle.run.specs.Laws.{Within};

    ghost Value = { Run P };

    ghost view = { λ v. run v.frames v.policy v.figures };

    ghost invariant = { λ v. Within P.model (run v.frames v.policy v.figures) };
}

// The most touches that a run accepts.
const MOST_TOUCHES: u32 = 16_000_000;

impl<P: Policy> OpenRun<P> {
    // Clears the policy and begins with an empty memory.
    pub fn open(settings: Settings, mut policy: P) -> OpenRun<P>
        ensures opened { result ≡ opened P.model settings.frames policy }
        ensures within { Within P.model result }
    {
        policy.clear();
        OpenRun {
            frames: settings.frames,
            policy,
            figures: Figures::default(),
        }
    }

    // Uses a page: a hit where it is in memory, else a fault, for which a page goes out where every
    // frame is taken.
    pub fn touch(&mut self, page: u32) -> Result<Touched, RunFault>
        ensures answer { result ≡ touch_answer P.model self.old page }
        ensures after { self.new ≡ touch_after P.model self.old page }
        ensures told { TouchTold P.model self.old page (touched result) self.new }
        ensures within { Within P.model self.old }
    {
        // Read first, since a run's invariant is known from the first look at a field on.
        let touches = self.figures.touches;
        if page >= PAGES {
            return Err(RunFault::NotAPage);
        }
        if touches >= MOST_TOUCHES {
            return Err(RunFault::TooManyTouches);
        }
        if self.policy.holds(page) {
            self.hit(page)
        } else {
            self.fault(page)
        }
    }

    // Lets a page go.
    pub fn release(&mut self, page: u32) -> Result<(), RunFault>
        ensures answer { result ≡ release_answer P.model self.old page }
        ensures after { self.new ≡ release_after P.model self.old page }
        ensures told { ReleaseTold P.model self.old page (freed result) self.new }
        ensures within { Within P.model self.old }
    {
        self.policy.drop(page)?;
        Ok(())
    }

    // A touch or a release.
    pub fn perform(&mut self, event: Event) -> Answer
        ensures answer { result ≡ event_answer P.model self.old event }
        ensures after { self.new ≡ event_after P.model self.old event }
        ensures told { EventTold P.model self.old event result self.new }
        ensures within { Within P.model self.old }
    {
        match event {
            Event::Touch(page) => Ok(self.touch(page)?.into()),
            Event::Release(page) => {
                self.release(page)?;
                Ok(Outcome::Released)
            }
        }
    }

    // How many pages are in memory.
    pub fn pages_in_memory(&self) -> u16
        ensures count { result ≡ length (memory P.model self.now) }
        ensures within { Within P.model self.now }
        ensures known { P.known self.now.policy }
    {
        self.policy.len()
    }

    // Ends the run.
    pub fn close(self) -> ClosedRun<P>
        ensures policy { result.policy ≡ self.policy }
        ensures figures { result.figures ≡ self.figures }
        ensures within { Within P.model self }
    {
        ClosedRun {
            policy: self.policy,
            figures: self.figures,
        }
    }

    // A touch of a page that is in memory.
    fn hit(&mut self, page: u32) -> Result<Touched, RunFault>
        requires { self.old.figures.touches < MOST_TOUCHES }
        ensures answer { result ≡ hit_answer P.model self.old page }
        ensures after { self.new ≡ hit_after P.model self.old page }
    {
        self.policy.hit(page)?;
        self.figures.touches += 1;
        Ok(Touched::Hit)
    }

    // A touch of a page that is not in memory.
    fn fault(&mut self, page: u32) -> Result<Touched, RunFault>
        requires { self.old.figures.touches < MOST_TOUCHES }
        ensures answer { result ≡ fault_answer P.model self.old page }
        ensures after { self.new ≡ fault_after P.model self.old page }
    {
        self.policy.fault(page)?;
        let out = make_room(&mut self.policy, self.frames);
        self.policy.load(page)?;
        self.figures.touches += 1;
        self.figures.faults += 1;
        let Some(out) = out else {
            return Ok(Touched::Fault);
        };
        self.figures.outs += 1;
        Ok(Touched::Replaced(out))
    }
}

// Has the policy give a page where every one of the frames is taken.
fn make_room<P: Policy>(policy: &mut P, frames: u16) -> Option<u16>
    requires { frames ≤ MOST_PAGES }
    ensures out { result ≡ sent_out P.model frames policy.old }
    ensures after { policy.new ≡ with_room P.model frames policy.old }
{
    if policy.len() < frames {
        return None;
    }
    policy.give()
}
