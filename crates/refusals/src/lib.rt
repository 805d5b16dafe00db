// What makes a record bad, and what a run refuses with.
#![tactic(auto)]

pub mod numbers;
mod refill;
mod under_way;
