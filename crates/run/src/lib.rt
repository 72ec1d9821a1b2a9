// Runs: pages touched and released one by one, in a memory of so many frames, under any policy.
#![tactic(auto)]

pub mod answer;
pub mod closed;
pub mod open;
pub mod play;
