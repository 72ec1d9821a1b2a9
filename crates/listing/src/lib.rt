// Traces as text: numbers are read, played over FIFO, and printed touch by touch.
#![tactic(auto)]

pub mod fault;
pub mod listing;
pub mod print;
pub mod read;
