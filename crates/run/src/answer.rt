// What is told to a run, and what it answers.
ghost use Rattle.std.specs.Prelude.{◌≡◌};
ghost use Rattle.run.specs.Answers.{outcome_of};

use settings::fault::RunFault;

// One entry of a trace.
#[derive(Clone, Copy, PartialEq, Eq, Debug)]
pub enum Event {
    // The page is used.
    Touch(u32),
    // The page is let go.
    Release(u32),
}

// What an accepted touch came to.
#[derive(Clone, Copy, PartialEq, Eq, Debug)]
pub enum Touched {
    // The page was in memory.
    Hit,
    // It was not, and came into a free frame.
    Fault,
    // It was not, and came in for the page that was sent out.
    Replaced(u16),
}

// What an accepted event came to.
#[derive(Clone, Copy, PartialEq, Eq, Debug)]
pub enum Outcome {
    // The page was in memory.
    Hit,
    // It was not, and came into a free frame.
    Fault,
    // It was not, and came in for the page that was sent out.
    Replaced(u16),
    // The page was let go.
    Released,
}

impl From<Touched> for Outcome {
    ghost from_gives = { λ t r. r ≡ outcome_of t };

    fn from(touched: Touched) -> Outcome {
        match touched {
            Touched::Hit => Outcome::Hit,
            Touched::Fault => Outcome::Fault,
            Touched::Replaced(out) => Outcome::Replaced(out),
        }
    }
}

// What an event is answered.
pub type Answer = Result<Outcome, RunFault>;

// What a run counts: accepted touches, those that were faults, and pages sent out.
#[derive(Clone, Copy, PartialEq, Eq, Debug, Default)]
pub struct Figures {
    pub touches: u32,
    pub faults: u32,
    pub outs: u32,
}
