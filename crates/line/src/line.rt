// Pages in a line: one that comes in joins the end, and so does one that is hit, where hits renew.
// The first goes first.
ghost use Rattle.std.specs.Prelude.{◌≡◌, ℕ, ◌≤◌, true, List, [], length, IfOk};
ghost use Rattle.pages.specs.Lists.{QueuePages, sound};
ghost use Rattle.policy.specs.Model.{capped};
ghost use Rattle.line.specs.Line.{line};
ghost use Rattle.line.specs.LineLaws.{line_lawful};

use crate::renewal::Renewal;
use ordered::order::PageOrder;
use pages::queue::PageQueue;
use std::alloc::{AllocError, Global};
use std::marker::Model;

// A clause sees the list of the pages, the first in front.
#[derive(Drop)]
pub struct Line<R> {
    queue: PageQueue,
    renewal: R,
}

impl<R> Model for Line<R> {
    ghost Value = { List ℕ };

    ghost view = { λ l. l.queue };
}

impl<R: Renewal + Drop> Line<R> {
    // A line with no page.
    pub fn new(heap: Global, renewal: R) -> Result<Line<R>, AllocError>
        ensures { IfOk result (λ l. l ≡ []) }
    {
        let queue = PageQueue::new(heap)?;
        Ok(Line { queue, renewal })
    }
}

#[tactic(auto, using(crate::specs::LineLaws::removed))]
impl<R: Renewal> PageOrder for Line<R> {
    ghost orders = { line R.Renewal.renews };

    ghost known = { QueuePages };

    ghost laws = { line_lawful R.Renewal.renews };

    fn clear(&mut self) {
        self.queue.clear();
    }

    fn put(&mut self, page: u32) {
        let _ = self.queue.push_back(page);
    }

    // A renewal is one `if` here; as a step of its own it would be this line in one type, and
    // nothing in the other.
    fn hit(&mut self, page: u32) {
        if self.renewal.renews() {
            let _ = self.queue.move_to_back(page);
        }
    }

    fn remove(&mut self, page: u32) {
        let _ = self.queue.remove(page);
    }

    fn take(&mut self) -> Option<u16> {
        // A look at the length, from which on it is known what every line keeps.
        let _ = self.len();
        self.queue.pop_front()
    }

    fn contains(&self, page: u32) -> bool {
        self.queue.contains(page)
    }

    fn len(&self) -> u16
        ensures count { result ≡ capped (length self.now) }
        ensures few { length self.now ≤ 1024 }
        ensures fits { sound self.now ≡ true }
        ensures known { QueuePages self.now }
    {
        self.queue.len()
    }
}
