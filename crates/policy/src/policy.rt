// The calls and questions of every policy. Each answer, and the standing after each call, is a
// function of the standing before it: a policy's standing is its value.
ghost use Rattle.std.specs.Prelude.{◌≡◌, length};
ghost use Rattle.policy.specs.Model.{Model, clear, fault, load, hit, drop, give, refusal, after, answer, held, capped};
ghost use Rattle.policy.specs.Laws.{Lawful};

use crate::fault::PolicyFault;

pub trait Policy {
    // What the policy means, whose values are its standings.
    ghost model: { Model Self };

    // What is known of every value; nothing, where a policy says nothing of its own.
    ghost known: { Self → Type 0 } = { λ _. Unit {0} };

    // Lets every page and the count go.
    fn clear(&mut self)
        ensures { self.new ≡ after model self.old clear };

    // Each of the four calls below has the same two clauses, of its own call: one relation of answer and
    // standing would say no less.

    // Is told of a fault, before the missing page comes in.
    fn fault(&mut self, page: u32) -> Result<(), PolicyFault>
        ensures answer { result ≡ answer (refusal model self.old (fault page)) }
        ensures after { self.new ≡ after model self.old (fault page) };

    // Takes a page in.
    fn load(&mut self, page: u32) -> Result<(), PolicyFault>
        ensures answer { result ≡ answer (refusal model self.old (load page)) }
        ensures after { self.new ≡ after model self.old (load page) };

    // Is told that a held page was touched.
    fn hit(&mut self, page: u32) -> Result<(), PolicyFault>
        ensures answer { result ≡ answer (refusal model self.old (hit page)) }
        ensures after { self.new ≡ after model self.old (hit page) };

    // Lets a held page go.
    fn drop(&mut self, page: u32) -> Result<(), PolicyFault>
        ensures answer { result ≡ answer (refusal model self.old (drop page)) }
        ensures after { self.new ≡ after model self.old (drop page) };

    // Chooses a held page, lets it go and answers it; none where no page is held.
    fn give(&mut self) -> Option<u16>
        ensures page { result ≡ model.gives self.old }
        ensures after { self.new ≡ after model self.old give }
        ensures known { known self.old };

    // Whether a page is held.
    fn holds(&self, page: u32) -> bool
        ensures { result ≡ held page (model.pages self.now) };

    // How many pages are held, counted up to 1,024: no policy holds more.
    fn len(&self) -> u16
        ensures count { result ≡ capped (length (model.pages self.now)) }
        ensures known { known self.now };

    // How many faults were accepted.
    fn faults(&self) -> u32
        ensures { result ≡ model.count self.now };

    // The lines of the interface.
    ghost laws: { Lawful model };
}
