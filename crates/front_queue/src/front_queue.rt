// A policy with a queue in front: the pages of the queue, how many may stand there, and the policy
// below.
ghost use Rattle.std.specs.Prelude.{◌≡◌, ◌<◌, ◌≤◌, true, false, length, IfOk};
ghost use Rattle.pages.specs.Lists.{has, sound};
ghost use Rattle.policy.specs.Laws.{AsMade};
ghost use Rattle.policy.specs.Model.{capped};
ghost use Rattle.front_queue.specs.Front.{fronted, join};
ghost use Rattle.front_queue.specs.Laws.{FrontLaws};
ghost use Rattle.front_queue.specs.FrontLawful.{front_lawful};

use pages::queue::PageQueue;
use policy::checks::check_absent;
use policy::fault::PolicyFault;
use policy::limits::MOST_PAGES;
use policy::policy::Policy;
use settings::settings::Settings;
use std::alloc::{AllocError, Global};
use std::marker::Model;

// A clause sees the pages of the queue, the oldest first, its size, and the policy below.
#[derive(Drop)]
pub struct FrontQueue<P> {
    queue: PageQueue,
    size: u16,
    below: P,
}

impl<P> Model for FrontQueue<P> {
    ghost use Rattle.std.specs.Prelude.{◌≤◌, length};
    ghost use Rattle.front_queue.specs.Front.{Queued, queued};

    ghost Value = { Queued P };

    ghost view = { λ v. queued v.queue v.size v.below };

    ghost invariant = { λ v. (v.size ≤ 1024) × (length v.queue ≤ v.size) };
}

impl<P: Policy + Drop> FrontQueue<P> {
    // A queue of as many pages as the settings say in front of the policy, which is cleared. This
    // takes its memory, and no later call takes any.
    pub fn new(heap: Global, settings: Settings, mut below: P) -> Result<FrontQueue<P>, AllocError>
        ensures made { IfOk result (λ f. AsMade (fronted P.model) (settings.front, P.model.setting below) f) }
        ensures laws { FrontLaws P.model }
    {
        let queue = PageQueue::new(heap)?;
        below.clear();
        Ok(FrontQueue {
            queue,
            size: settings.front,
            below,
        })
    }
}

#[tactic(auto, using(crate::proofs::Ways::front_rules))]
impl<P: Policy> FrontQueue<P> {
    // A page that is not in the queue joins its end; above the queue's size, its oldest page goes
    // below.
    fn join(&mut self, page: u32)
        requires page { page < 4096 }
        requires absent { has page self.old.front ≡ false }
        ensures { self.new ≡ join P.model self.old.front self.old.size self.old.below page }
    {
        if self.queue.len() < self.size {
            let _ = self.queue.push_back(page);
            return;
        }
        let Some(oldest) = self.queue.pop_front() else {
            let _ = self.below.load(page);
            return;
        };
        let _ = self.queue.push_back(page);
        let _ = self.below.load(u32::from(oldest));
    }
}

#[tactic(auto, using(crate::proofs::Ways::front_rules))]
impl<P: Policy> Policy for FrontQueue<P> {
    ghost model = { fronted P.Policy.model };

    ghost known = { λ s. (length s.front ≤ s.size) × (s.size ≤ 1024) × (sound s.front ≡ true) × P.Policy.known s.below };

    ghost laws = { front_lawful P.Policy.model P.Policy.laws };

    fn clear(&mut self) {
        self.queue.clear();
        self.below.clear();
    }

    fn fault(&mut self, page: u32) -> Result<(), PolicyFault> {
        if self.queue.contains(page) {
            return Err(PolicyFault::AlreadyHeld);
        }
        self.below.fault(page)
    }

    fn load(&mut self, page: u32) -> Result<(), PolicyFault> {
        check_absent(page, self.holds(page))?;
        if self.len() >= MOST_PAGES {
            return Err(PolicyFault::Full);
        }
        self.join(page);
        Ok(())
    }

    fn hit(&mut self, page: u32) -> Result<(), PolicyFault> {
        if self.queue.contains(page) {
            return Ok(());
        }
        if self.size == 0 {
            return self.below.hit(page);
        }
        self.below.drop(page)?;
        self.join(page);
        Ok(())
    }

    fn drop(&mut self, page: u32) -> Result<(), PolicyFault> {
        if self.queue.remove(page) {
            return Ok(());
        }
        self.below.drop(page)
    }

    fn give(&mut self) -> Option<u16> {
        // A look at the length, from which on it is known what every queue keeps.
        let _ = self.queue.len();
        // Not by `or_else`: its contract says nothing of a closure that is not called, so the
        // proof would lose what stands in the queue.
        match self.below.give() {
            Some(page) => Some(page),
            None => self.queue.pop_front(),
        }
    }

    fn holds(&self, page: u32) -> bool {
        self.queue.contains(page) || self.below.holds(page)
    }

    fn len(&self) -> u16
        ensures count { result ≡ capped (length ((fronted P.model).pages self.now)) }
        ensures few { length self.now.front ≤ self.now.size }
        ensures most { self.now.size ≤ 1024 }
        ensures fits { sound self.now.front ≡ true }
        ensures known { (length self.now.front ≤ self.now.size) × (self.now.size ≤ 1024) × (sound self.now.front ≡ true) × P.known self.now.below }
    {
        let front = self.queue.len();
        let below = self.below.len();
        (front + below).min(MOST_PAGES)
    }

    fn faults(&self) -> u32 {
        self.below.faults()
    }
}
