// The picture of a run, as SVG. It is given the stores one after another, in a memory that does not grow with them, and writes the drawing at
// the end. Knows no machine. Of a drawing its scale is claimed, where a number lies and how long ticks are, and nothing else: sums saturate, and
// what it cannot place it leaves out.
#![tactic(auto)]

mod beginning;
mod drawing;
mod first;
mod gaps;
mod histogram;
mod key;
mod labels;
mod levels;
mod logarithm;
mod look;
mod marks;
mod page;
mod panel;
mod round;
mod slices;
mod span;
mod svg;
mod time;

use drawing::Drawing;
use first::First;
use gaps::Gaps;
use slices::Slices;
use std::alloc::{AllocError, Global};

// An option as it came out: `overflow_store` counts from 1, and is 0 where nothing overflowed.
#[derive(Clone, Copy, Default)]
pub struct Outcome {
    pub rate: u32,
    pub backlog: u64,
    pub grows: bool,
    pub fits: bool,
    pub overflow_store: u64,
    pub overflow_tick: u64,
}

// What the run was. `choice` is the place of an option, if one was chosen.
#[derive(Drop)]
pub struct Run<'a> {
    pub file: &'a str,
    pub from: u32,
    pub to: u32,
    pub cycles: u64,
    pub outcomes: &'a [Outcome],
    pub choice: Option<usize>,
}

// Ticks a second, and words in the buffer.
#[derive(Clone, Copy)]
pub(crate) struct Link {
    clock: u64,
    words: u64,
}

impl Link {
    // Bits.
    fn holds(&self) -> u64 {
        self.words.saturating_mul(32)
    }

    // A level, which is bits times the clock, rounded up.
    fn bits(&self, level: u64) -> u64 {
        level.div_ceil(self.clock.max(1))
    }
}

impl Run<'_> {
    fn outcome(&self, option: usize) -> Outcome {
        self.outcomes.get(option).copied().unwrap_or_default()
    }

    // The option whose buffer is shown: the choice, or without one the least.
    fn banded(&self) -> Option<usize> {
        if self.outcomes.is_empty() {
            return None;
        }
        Some(self.choice.unwrap_or(0))
    }
}

#[derive(Drop)]
pub struct Picture {
    link: Link,
    stores: u64,
    bits: u64,
    last: u64,
    first: First,
    slices: Slices,
    gaps: Gaps,
}

impl Picture {
    // The options in kb/s, rising.
    pub fn new(
        alloc: Global,
        options: &[u32],
        clock: u64,
        words: u64,
    ) -> Result<Picture, AllocError> {
        Ok(Picture {
            link: Link { clock, words },
            stores: 0,
            bits: 0,
            last: 0,
            first: First::new(alloc),
            slices: Slices::new(alloc, options)?,
            gaps: Gaps::new(alloc)?,
        })
    }

    // The next store: its tick, its bits, and each option's level after it, in bits times the clock. Fails only where memory does, and only among
    // the first few hundred stores.
    pub fn store(&mut self, tick: u64, bits: u64, levels: &[u64]) -> Result<(), AllocError> {
        if self.stores > 0 {
            self.gaps.count(tick.saturating_sub(self.last));
        }
        self.stores = self.stores.saturating_add(1);
        self.bits = self.bits.saturating_add(bits);
        self.last = tick;
        self.slices.store(tick, levels);
        self.first.store(tick, self.bits, levels)
    }

    pub fn draw(&self, alloc: Global, run: &Run<'_>) -> Result<Vec<u8>, AllocError> {
        let mut drawing = Drawing::new(alloc);
        page::write(&mut drawing, self, run);
        drawing.finished()
    }
}
