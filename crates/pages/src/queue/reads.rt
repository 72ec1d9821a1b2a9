// What a page queue tells, as fast with many pages as with few.
ghost use Rattle.std.specs.Prelude.{◌≡◌, ◌<◌, ◌≤◌, true, length};
ghost use Rattle.pages.specs.Lists.{has, sound};

use super::{END, PageQueue};

#[tactic(auto, using(crate::proofs::Linked::queue_laws))]
impl PageQueue {
    // How many pages there are.
    pub fn len(&self) -> u16
        ensures count { result ≡ length self.now }
        ensures few { result ≤ 1024 }
        ensures fits { sound self.now ≡ true }
    {
        self.len
    }

    // Whether a page is in the queue; no number from 4,096 is.
    pub fn contains(&self, page: u32) -> bool
        ensures found { result ≡ has page self.now }
        ensures page { result ≡ true → page < 4096 }
    {
        page < END as u32 && self.links[page as usize].next != page as u16
    }
}
