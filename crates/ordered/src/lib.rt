// Policies that keep their pages in an order, and give the one that the order puts first.
#![tactic(auto)]

pub mod order;
pub mod ordered;
