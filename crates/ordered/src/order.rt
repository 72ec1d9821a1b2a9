// An order of pages. What each call makes of it is a function of the order before; a page that does
// not fit changes nothing.
ghost use Rattle.std.specs.Prelude.{◌≡◌, length, if◌then◌else◌};
ghost use Rattle.pages.specs.Lists.{has, joins};
ghost use Rattle.policy.specs.Model.{capped};
ghost use Rattle.ordered.specs.Orders.{OrderModel, LawfulOrder};

pub trait PageOrder {
    // What the order means, whose values are the orders.
    ghost orders: { OrderModel Self };

    // What is known of every value; nothing, where an order says nothing of its own.
    ghost known: { Self → Type 0 } = { λ _. Unit {0} };

    // Lets every page go.
    fn clear(&mut self)
        ensures { self.new ≡ orders.empty };

    // Takes a page in.
    fn put(&mut self, page: u32)
        ensures { self.new ≡ (if joins page (orders.pages self.old) then orders.on_put self.old page else self.old) };

    // Takes note of a hit.
    fn hit(&mut self, page: u32)
        ensures { self.new ≡ (if has page (orders.pages self.old) then orders.on_hit self.old page else self.old) };

    // Lets a page go.
    fn remove(&mut self, page: u32)
        ensures { self.new ≡ (if has page (orders.pages self.old) then orders.on_remove self.old page else self.old) };

    // Lets the page go that the order puts first.
    fn take(&mut self) -> Option<u16>
        ensures page { result ≡ orders.takes self.old }
        ensures after { self.new ≡ orders.on_take self.old }
        ensures known { known self.old };

    fn contains(&self, page: u32) -> bool
        ensures { result ≡ has page (orders.pages self.now) };

    // How many pages there are, counted up to 1,024.
    fn len(&self) -> u16
        ensures count { result ≡ capped (length (orders.pages self.now)) }
        ensures known { known self.now };

    ghost laws: { LawfulOrder orders };
}
