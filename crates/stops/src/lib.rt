// Which stop an instruction meets: the rules of 23, the addresses that are moved, and 21 to 25 in their order.
#![tactic(auto)]

pub mod reason;
pub mod rules;
pub mod span;
pub mod stop;
pub mod walk;
