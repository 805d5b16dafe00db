// The whole run in a few hundred slices of time, each with the greatest level of each option. Where time outgrows them, two become one.
use std::alloc::{AllocError, Global};

pub const SLICES: usize = 512;

#[derive(Drop)]
pub struct Slices {
    // Bits a second.
    drains: Vec<u64>,
    greatest: Vec<u64>,
    // After the last store.
    levels: Vec<u64>,
    start: u64,
    last: u64,
    // Ticks to a slice.
    pub width: u64,
    // Slices that have begun.
    pub begun: usize,
}

impl Slices {
    pub fn new(alloc: Global, options: &[u32]) -> Result<Slices, AllocError> {
        let mut drains = Vec::new(alloc);
        for option in options {
            drains.push(u64::from(*option).saturating_mul(1000))?;
        }
        Ok(Slices {
            drains,
            greatest: vec![in alloc; 0u64; SLICES.saturating_mul(options.len())]?,
            levels: vec![in alloc; 0u64; options.len()]?,
            start: 0,
            last: 0,
            width: 1,
            begun: 0,
        })
    }

    fn options(&self) -> usize {
        self.drains.len()
    }

    fn place(&self, slice: usize, option: usize) -> usize {
        slice.saturating_mul(self.options()).saturating_add(option)
    }

    pub fn level(&self, slice: usize, option: usize) -> u64 {
        let place = self.place(slice, option);
        self.greatest.get(place).copied().unwrap_or(0)
    }

    // The tick at which a slice begins.
    pub fn begins(&self, slice: usize) -> u64 {
        self.start
            .saturating_add(self.width.saturating_mul(slice as u64))
    }

    fn put(&mut self, slice: usize, option: usize, level: u64) {
        let place = self.place(slice, option);
        if let Some(greatest) = self.greatest.get_mut(place) {
            *greatest = level;
        }
    }

    fn halve(&mut self) {
        for slice in 0..SLICES {
            for option in 0..self.options() {
                let even = self.level(slice.saturating_mul(2), option);
                let odd = self.level(slice.saturating_mul(2).saturating_add(1), option);
                self.put(slice, option, even.max(odd));
            }
        }
        self.width = self.width.saturating_mul(2);
        self.begun = self.begun.div_ceil(2);
    }

    fn slice_of(&self, tick: u64) -> u64 {
        tick.saturating_sub(self.start) / self.width.max(1)
    }

    // A level that drains from the last store up to a tick.
    fn drained(&self, option: usize, tick: u64) -> u64 {
        let level = self.levels.get(option).copied().unwrap_or(0);
        let drain = self.drains.get(option).copied().unwrap_or(0);
        level.saturating_sub(drain.saturating_mul(tick.saturating_sub(self.last)))
    }

    // Begins the slices up to this one: in each, the level falls from where it is as the slice begins.
    fn begin(&mut self, slice: usize) {
        for new in self.begun..slice.saturating_add(1) {
            for option in 0..self.options() {
                let level = self.drained(option, self.begins(new));
                self.put(new, option, level);
            }
            self.begun = new.saturating_add(1);
        }
    }

    fn raise(&mut self, slice: usize, levels: &[u64]) {
        let place = self.place(slice, 0);
        let Some(here) = self.greatest.as_mut_slice().get_mut(place..) else {
            return;
        };
        for (greatest, level) in here.iter_mut().zip(levels) {
            if *level > *greatest {
                *greatest = *level;
            }
        }
    }

    // Until the tick has a slice.
    fn widen(&mut self, tick: u64) {
        for _ in 0..64 {
            if self.slice_of(tick) >= SLICES as u64 {
                self.halve();
            }
        }
    }

    pub fn store(&mut self, tick: u64, levels: &[u64]) {
        if self.begun == 0 {
            self.start = tick;
            self.last = tick;
        }
        if self.slice_of(tick) >= SLICES as u64 {
            self.widen(tick);
        }
        let slice = self.slice_of(tick) as usize;
        if slice >= self.begun {
            self.begin(slice);
        }
        self.raise(slice, levels);
        for (old, new) in self.levels.iter_mut().zip(levels) {
            *old = *new;
        }
        self.last = tick;
    }
}
