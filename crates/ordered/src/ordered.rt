// A policy over an order of pages: it makes the checks, counts the faults, and leaves the rest to
// the order.
ghost use Rattle.std.specs.Prelude.{◌≡◌, ◌≤◌};
ghost use Rattle.policy.specs.Laws.{AsMade};
ghost use Rattle.ordered.specs.Ordered.{ordered};
ghost use Rattle.std.proofs.Common.{rules};

use crate::order::PageOrder;
use policy::checks::{check_absent, check_held};
use policy::fault::PolicyFault;
use policy::limits::{MOST_FAULTS, MOST_PAGES, PAGES};
use policy::policy::Policy;
use std::marker::Model;

// A clause sees the order and the count.
#[derive(Drop)]
pub struct Ordered<O> {
    order: O,
    faults: u32,
}

impl<O> Model for Ordered<O> {
    ghost use Rattle.std.specs.Prelude.{◌≤◌};
    ghost use Rattle.ordered.specs.Ordered.{Kept, kept};

    ghost Value = { Kept O };

    ghost view = { λ v. kept v.order v.faults };

    ghost invariant = { λ v. v.faults ≤ 16000000 };
}

impl<O: PageOrder> Ordered<O> {
    // A policy over the order, which is cleared.
    pub fn new(mut order: O) -> Ordered<O>
        ensures { AsMade (ordered O.orders) tt result }
    {
        order.clear();
        Ordered { order, faults: 0 }
    }
}

impl<O: PageOrder> Policy for Ordered<O> {
    ghost model = { ordered O.orders };

    ghost known = { λ s. (s.faults ≤ 16000000) × O.PageOrder.known s.order };

    ghost laws = { Prim.search rules };

    fn clear(&mut self) {
        self.order.clear();
        self.faults = 0;
    }

    fn fault(&mut self, page: u32) -> Result<(), PolicyFault> {
        check_absent(page, self.order.contains(page))?;
        if self.faults >= MOST_FAULTS {
            return Err(PolicyFault::TooManyFaults);
        }
        self.faults += 1;
        Ok(())
    }

    fn load(&mut self, page: u32) -> Result<(), PolicyFault> {
        check_absent(page, self.order.contains(page))?;
        if self.order.len() >= MOST_PAGES {
            return Err(PolicyFault::Full);
        }
        self.order.put(page);
        Ok(())
    }

    fn hit(&mut self, page: u32) -> Result<(), PolicyFault> {
        check_held(page, self.order.contains(page))?;
        self.order.hit(page);
        Ok(())
    }

    fn drop(&mut self, page: u32) -> Result<(), PolicyFault> {
        check_held(page, self.order.contains(page))?;
        self.order.remove(page);
        Ok(())
    }

    fn give(&mut self) -> Option<u16> {
        self.order.take()
    }

    fn holds(&self, page: u32) -> bool {
        page < PAGES && self.order.contains(page)
    }

    fn len(&self) -> u16 {
        self.order.len()
    }

    fn faults(&self) -> u32
        ensures count { result ≡ self.now.faults }
        ensures most { result ≤ 16000000 }
    {
        self.faults // since it was cleared
    }
}
