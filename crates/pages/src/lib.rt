// Pages in order: the queue that the policies stand on, and lists of pages.
#![tactic(auto)]

pub mod queue;
