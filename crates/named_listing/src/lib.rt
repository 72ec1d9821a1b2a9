// Traces as text that name their policy: the name and the numbers are read, played and printed touch
// by touch.
#![tactic(auto)]

pub mod name;
pub mod texts;
