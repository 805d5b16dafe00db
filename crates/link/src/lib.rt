// What a link buffer is handed: the stores into a window of addresses, each at its cycle and its tick; their summary; and the buffer that an
// option empties. Knows no machine.
#![tactic(auto)]

pub mod buffers;
pub mod summaries;
pub mod windows;

// A store: the cycle that writes it and its tick, both counted from the start's first; where, and how many bytes (1 or 4).
#[derive(Clone, Copy, Default)]
pub struct Store {
    pub cycle: u64,
    pub tick: u64,
    pub address: u32,
    pub bytes: u32,
}

// Byte addresses from `from` up to, and without, `to`.
#[derive(Clone, Copy)]
pub struct Window {
    pub from: u32,
    pub to: u32,
}

// When the first and the last of some stores came, and the least and the greatest time between two neighbours (0 where there are none).
#[derive(Clone, Copy, Default)]
pub struct Times {
    pub first: u64,
    pub last: u64,
    pub least: u64,
    pub greatest: u64,
}

// Cycles and ticks each for themselves.
#[derive(Clone, Copy, Default)]
pub struct Summary {
    pub stores: u64,
    pub bits: u64,
    pub first_bits: u64,
    pub cycles: Times,
    pub ticks: Times,
}

// An option of so many kb/s, on a clock of so many ticks a second, with a buffer of so many words.
#[derive(Clone, Copy)]
pub struct Line {
    pub kilobits: u64,
    pub clock: u64,
    pub words: u64,
}

// A buffer after some stores. Levels are bits times the clock, so that nothing is rounded. `peak` is the store, counted from 1, whose level was
// the greatest, the first of them; `overflow` the first above what the buffer holds, with its tick; 0 where there is none.
#[derive(Clone, Copy, Default)]
pub struct Buffer {
    pub stores: u64,
    pub level: u64,
    pub tick: u64,
    pub greatest: u64,
    pub peak: u64,
    pub overflow: u64,
    pub overflow_tick: u64,
}

// What an option is told by: the greatest level in bits, rounded up, whether it grows, and the first overflow (0 where the buffer held all).
#[derive(Clone, Copy)]
pub struct Verdict {
    pub backlog: u64,
    pub grows: bool,
    pub overflow: u64,
    pub overflow_tick: u64,
}
