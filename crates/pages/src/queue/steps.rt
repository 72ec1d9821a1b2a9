// What makes and changes a page queue. Only `clear` takes longer where there are more pages.
ghost use Rattle.std.specs.Prelude.{◌≡◌, ◌<◌, true, [], ◌∷◌, ◌++◌, IfOk, IfSome, if◌then◌else◌};
ghost use Rattle.pages.specs.Lists.{has, without, first, rest, joins};

use super::{END, Link, MOST, PageQueue};
use std::alloc::{AllocError, Global};

#[tactic(auto, using(crate::proofs::Linked::queue_laws))]
impl PageQueue {
    // A queue with no page. This allocates the table, and nothing else does.
    pub fn new(heap: Global) -> Result<PageQueue, AllocError>
        ensures { IfOk result (λ q. q ≡ []) }
    {
        let links = (0..END + 1).map(Link::alone).collect(heap)?;
        Ok(PageQueue { links, len: 0 })
    }

    // Whether a page can join: it is one, it is not there yet, and there is room.
    fn can_join(&self, page: u32) -> bool
        ensures { result ≡ joins page self.now }
    {
        page < END as u32 && self.len < MOST && !self.contains(page)
    }

    // Puts a page at the end; false, and nothing changes, where it cannot join.
    pub fn push_back(&mut self, page: u32) -> bool
        ensures joined { result ≡ joins page self.old }
        ensures pages { self.new ≡ (if joins page self.old then self.old ++ page ∷ [] else self.old) }
    {
        if !self.can_join(page) {
            return false;
        }
        let page = page as u16;
        let last = self.links[END as usize].prev;
        self.links[page as usize] = Link {
            prev: last,
            next: END,
        };
        self.links[last as usize].next = page;
        self.links[END as usize].prev = page;
        self.len += 1;
        true
    }

    // Takes a page out, wherever it stands; false, and nothing changes, where it is not there.
    pub fn remove(&mut self, page: u32) -> bool
        ensures found { result ≡ has page self.old }
        ensures page { result ≡ true → page < 4096 }
        ensures pages { self.new ≡ without page self.old }
        ensures rejoins { result ≡ true → joins page self.new ≡ true }
    {
        if !self.contains(page) {
            return false;
        }
        let page = page as u16;
        let Link { prev, next } = self.links[page as usize];
        self.links[prev as usize].next = next;
        self.links[next as usize].prev = prev;
        self.links[page as usize] = Link::alone(page);
        self.len -= 1;
        true
    }

    // Takes the first page out; none where there is none.
    pub fn pop_front(&mut self) -> Option<u16>
        ensures page { result ≡ first self.old }
        ensures pages { self.new ≡ rest self.old }
        ensures rejoins { IfSome result (λ p. joins p self.new ≡ true) }
    {
        if self.len == 0 {
            return None;
        }
        let page = self.links[END as usize].next;
        let _ = self.remove(page as u32);
        Some(page)
    }

    // Moves a page to the end; false, and nothing changes, where it is not there.
    pub fn move_to_back(&mut self, page: u32) -> bool
        ensures found { result ≡ has page self.old }
        ensures page { result ≡ true → page < 4096 }
        ensures pages { self.new ≡ (if has page self.old then without page self.old ++ page ∷ [] else self.old) }
    {
        if !self.remove(page) {
            return false;
        }
        self.push_back(page)
    }

    // Takes every page out.
    pub fn clear(&mut self)
        ensures { self.new ≡ [] }
    {
        while let Some(_) = self.pop_front() {}
    }
}
