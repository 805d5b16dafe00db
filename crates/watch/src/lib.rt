// A run that tells its stores into a window, each with its cycle and its tick.
#![tactic(auto)]

pub mod calls;
mod due;
mod quick;
pub mod rated;
pub mod run;
mod tell;

use cycle::Control;
use plain::Ran;

// What a watched run comes to, and how many stores it told.
#[derive(Clone, Copy)]
pub struct Watched {
    pub ran: Ran<Control>,
    pub told: usize,
}
