// The settings of a run and of what stands in it, and why a run refuses a call.
#![tactic(auto)]

pub mod fault;
pub mod numbers;
pub mod settings;
