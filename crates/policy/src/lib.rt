// What every page-replacement policy offers, and what each call means.
#![tactic(auto)]

pub mod checks;
pub mod fault;
pub mod laws;
pub mod limits;
pub mod policy;
