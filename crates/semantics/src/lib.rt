// What both engines share of a whole instruction: its stop, its effect and its duration.
#![tactic(auto)]

pub mod branch;
pub mod duration;
pub mod kinds;
pub mod own_steps;
pub mod perform;
mod raise;
pub mod stores;

// What came of an instruction that is done, beside registers and memory: the flags; the address of the next instruction; the cycles taken.
#[derive(Clone, Copy)]
pub struct Performed {
    pub flags: u32,
    pub next: u32,
    pub cycles: u32,
}

// Cycles by kind: non-sequential, sequential and internal.
#[derive(Clone, Copy, Default)]
pub struct Sums {
    pub n: u64,
    pub s: u64,
    pub i: u64,
}

// What whole instructions count as they go: non-sequential accesses, and the accesses beyond the one that each has. So processing that
// stores no counter, and multiplies, most of what runs, count nothing.
#[derive(Clone, Copy, Default)]
pub struct Tally {
    pub n: u64,
    pub extra: u64,
}
