// What an instruction does in each of its own steps, besides the fetch. Registers and memory are lent, the rest goes by value.
#![tactic(auto)]

mod blocks;
pub mod ending;
pub mod first;
pub mod later;

ghost use Rattle.std.specs.Prelude.{◌≡◌};

use datapath::counter::R15;
use memory::Board;

// What the next cycle does. Steps 2 and later are counted from 0.
#[derive(Clone, Copy)]
pub enum Phase {
    Step1,
    Refill1,
    Refill2,
    Later(u32),
}

// What ended: the start, with its refills; an instruction whose condition failed; or one that was executed, with m where it is a
// multiply, taken from Rs before Rd is written, which may be the same; else 0.
#[derive(Clone, Copy)]
pub enum Ended {
    Start,
    Skipped,
    Executed(u32),
}

// How a cycle ends: the instruction goes on in a phase; it is done; or it stored the counter.
#[derive(Clone, Copy)]
pub enum After {
    More(Phase),
    Done(Ended),
    Jump(u32),
}

// The next address to be moved, the data latch, and the written-back base; one that no step left needs is 0.
#[derive(Clone, Copy, Default)]
pub struct Latches {
    pub address: u32,
    pub datum: u32,
    pub base: u32,
}

// What a step from 2 on finds besides the registers and the lent bytes. PC is A+12.
#[derive(Clone, Copy)]
pub struct Found {
    pub flags: u32,
    pub pc: u32,
    pub latches: Latches,
    pub board: Board,
}

impl Found {
    pub fn r15(self) -> R15
        ensures { (result.flags ≡ self.flags) × (result.pc ≡ self.pc) }
    {
        R15 {
            flags: self.flags,
            pc: self.pc,
        }
    }
}

// What a step leaves beside the registers and the memory, which are lent.
#[derive(Clone, Copy)]
pub struct Step {
    pub flags: u32,
    pub latches: Latches,
    pub after: After,
}
