// Cycles until the budget is spent or a stop is found, and the quick road by whole instructions.
#![tactic(auto)]

pub mod left;
pub mod quick;
pub mod run;

use cycle::Control;

// A core under way, and the cycles used to come there.
#[derive(Clone, Copy)]
pub struct Advanced {
    pub used: u64,
    pub control: Control,
}
