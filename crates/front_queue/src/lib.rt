// A queue in front of any policy: a page is loaded into the queue, and goes below once the queue is
// over its size.
#![tactic(auto)]

pub mod front_queue;
