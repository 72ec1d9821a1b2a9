// Pages in an order, each with a mark: the ring of CLOCK.
ghost use Rattle.std.specs.Prelude.{◌≡◌, ◌≤◌, true, [], length, IfOk};
ghost use Rattle.pages.specs.Lists.{QueuePages, sound};
ghost use Rattle.policy.specs.Model.{capped};
ghost use Rattle.clock.specs.Ring.{pages_in, ring};
ghost use Rattle.clock.specs.RingLaws.{ring_lawful};

use ordered::order::PageOrder;
use pages::queue::PageQueue;
use policy::limits::PAGES;
use std::alloc::{AllocError, Global};
use std::marker::Model;
use std::mem;

// The pages in their order, the front first. A clause sees each page with its mark.
#[derive(Drop)]
pub struct MarkedQueue {
    queue: PageQueue,
    // A mark for each page number. It is no part of the queue, whose other users have no marks.
    marks: Vec<bool>,
}

impl Model for MarkedQueue {
    ghost use Rattle.std.specs.Prelude.{◌≡◌, vec_len};
    ghost use Rattle.clock.specs.Ring.{Ring, marked_by};

    ghost Value = { Ring };

    ghost view = { λ h. marked_by h.marks.items h.queue };

    ghost invariant = { λ h. vec_len h.marks ≡ 4096 };
}

impl MarkedQueue {
    // A ring with no page.
    pub fn new(heap: Global) -> Result<MarkedQueue, AllocError>
        ensures { IfOk result (λ h. h ≡ []) }
    {
        let queue = PageQueue::new(heap)?;
        let marks = vec![in heap; false; PAGES as usize]?;
        Ok(MarkedQueue { queue, marks })
    }
}

#[tactic(auto, using(crate::proofs::Marks::marked_laws))]
impl PageOrder for MarkedQueue {
    ghost orders = { ring };

    ghost known = { λ xs. QueuePages (pages_in xs) };

    ghost laws = { ring_lawful };

    fn clear(&mut self) {
        self.queue.clear();
    }

    fn put(&mut self, page: u32) {
        if self.queue.push_back(page) {
            self.marks[page as usize] = false;
        }
    }

    fn hit(&mut self, page: u32) {
        if self.queue.contains(page) {
            self.marks[page as usize] = true;
        }
    }

    fn remove(&mut self, page: u32) {
        let _ = self.queue.remove(page);
    }

    // Marked pages in front go to the end, unmarked, until an unmarked one is in front.
    fn take(&mut self) -> Option<u16> {
        // A look at the length, from which on it is known what every ring keeps.
        let _ = self.len();
        while let Some(page) = self.queue.pop_front() {
            if !mem::take(&mut self.marks[page as usize]) {
                return Some(page);
            }
            let _ = self.queue.push_back(u32::from(page));
        }
        None
    }

    fn contains(&self, page: u32) -> bool {
        self.queue.contains(page)
    }

    fn len(&self) -> u16
        ensures count { result ≡ capped (length (pages_in self.now)) }
        ensures few { length (pages_in self.now) ≤ 1024 }
        ensures fits { sound (pages_in self.now) ≡ true }
        ensures known { QueuePages (pages_in self.now) }
    {
        self.queue.len()
    }
}
