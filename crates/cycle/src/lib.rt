// A cycle of the core: its record but the registers, the stop found before step 1, the cycle, and what a start hands back.
#![tactic(auto)]

pub mod cycle;
pub mod fresh;
mod own;
pub mod stop;

use memory::Board;
use semantics::Sums;
use steps::{Latches, Phase};

// The counter and the words fetched. IX holds the word of the instruction under way.
#[derive(Clone, Copy, Default)]
pub struct Pipe {
    pub pc: u32,
    pub ir1: Option<u32>,
    pub ir2: Option<u32>,
    pub ix: Option<u32>,
}

// What is counted: cycles, instructions retired, and the cycles of those by kind.
#[derive(Clone, Copy, Default)]
pub struct Counts {
    pub cycles: u64,
    pub retired: u64,
    pub sums: Sums,
}

// All of the core but its registers.
#[derive(Clone, Copy)]
pub struct Control {
    pub flags: u32,
    pub pipe: Pipe,
    pub phase: Phase,
    pub latches: Latches,
    pub counts: Counts,
    pub stop: u32,
    pub board: Board,
}
