// The pages of a queue, doubly linked in a table over page numbers.
ghost use Rattle.std.specs.Prelude.{◌≡◌};

use std::marker::Model;

pub mod reads;
pub mod steps;

// The end mark. A page is a number below it.
const END: u16 = 4096;
// How many pages a queue has at most.
const MOST: u16 = 1024;

// The page before and the page behind, or the end mark.
#[derive(Clone, Copy)]
struct Link {
    prev: u16,
    next: u16,
}

impl Link {
    // The link of a page that has no other: to itself.
    fn alone(at: u16) -> Link
        ensures { result ≡ record { prev = at; next = at } }
    {
        Link { prev: at, next: at }
    }
}

// Distinct pages below 4,096 in an order, at most 1,024 of them.
// Any page leaves or moves in one step, and no call but `new` takes memory: so the links are kept by
// page number, and not in boxes or a map.
// Entry 4,096 of the table is the queue's end mark: forth from it is the first page, back from it
// the last. A page that is not in the queue is linked to itself.
#[derive(Drop)]
pub struct PageQueue {
    links: Vec<Link>,
    // How many pages there are, counted, since else each look would walk the links.
    len: u16,
}

// A clause sees the list of the pages in their order.
impl Model for PageQueue {
    ghost use Rattle.std.specs.Prelude.{ℕ, List};

    ghost Value = { List ℕ };

    ghost use Rattle.pages.specs.Queue.{pages_of, IsQueue};

    ghost view = { pages_of };

    ghost invariant = { IsQueue };
}
