// The first stores, each as it was.
use std::alloc::{AllocError, Global};

// Where gaps differ, three of the long ones are shown; else so many stores.
const LONG_GAPS: usize = 3;

const EVEN_STORES: usize = 60;

const FEW_STORES: usize = 8;

const MOST_STORES: usize = 256;

#[derive(Clone, Copy, Default)]
pub struct Handed {
    pub tick: u64,
    // All that was handed over, this store's among it.
    pub bits: u64,
}

#[derive(Drop)]
pub struct First {
    stores: Vec<Handed>,
    levels: Vec<u64>,
    options: usize,
}

impl First {
    pub fn new(alloc: Global) -> First {
        First {
            stores: Vec::new(alloc),
            levels: Vec::new(alloc),
            options: 0,
        }
    }

    pub fn store(&mut self, tick: u64, bits: u64, levels: &[u64]) -> Result<(), AllocError> {
        if self.stores.len() < MOST_STORES {
            self.options = levels.len();
            self.stores.push(Handed { tick, bits })?;
            for level in levels {
                self.levels.push(*level)?;
            }
        }
        Ok(())
    }

    // Counted from 0; nothing handed over where there is none.
    pub fn at(&self, store: usize) -> Handed {
        self.stores.get(store).copied().unwrap_or_default()
    }

    // The one before, and before the first nothing.
    pub fn before(&self, store: usize) -> Handed {
        match store.checked_sub(1) {
            Some(before) => self.at(before),
            None => Handed::default(),
        }
    }

    pub fn level(&self, store: usize, option: usize) -> u64 {
        let place = store.saturating_mul(self.options).saturating_add(option);
        self.levels.get(place).copied().unwrap_or(0)
    }

    // The gap after a store.
    fn gap(&self, store: usize) -> u64 {
        let next = self.at(store.saturating_add(1));
        next.tick.saturating_sub(self.at(store).tick)
    }

    // The store before the greatest gap among the stores from `from` up to `to`.
    fn before_greatest(&self, from: usize, to: usize) -> usize {
        let mut place = from;
        for store in from..to.saturating_sub(1) {
            if self.gap(store) > self.gap(place) {
                place = store;
            }
        }
        place
    }

    // How many gaps are at least `least`.
    fn long_gaps(&self, from: usize, to: usize, least: u64) -> usize {
        let mut long = 0usize;
        for store in from..to.saturating_sub(1) {
            if self.gap(store) >= least {
                long = long.saturating_add(1);
            }
        }
        long
    }

    // A lone pause that would take most of the room: what comes after it, or before it, if that is enough to be read.
    fn without_pause(&self, from: usize, to: usize) -> (usize, usize) {
        let place = self.before_greatest(from, to);
        let pause = self.gap(place);
        let all = self.ticks(from, to);
        if pause <= all / 2 || self.long_gaps(from, to, pause / 2) > 1 {
            return (from, to);
        }
        let after = place.saturating_add(1);
        if to.saturating_sub(after) >= FEW_STORES {
            (after, to)
        } else if after.saturating_sub(from) >= FEW_STORES {
            (from, after)
        } else {
            (from, to)
        }
    }

    fn ticks(&self, from: usize, to: usize) -> u64 {
        self.before(to).tick.saturating_sub(self.at(from).tick)
    }

    // Up to the end of the burst after the third long gap, or up to where gaps are alike.
    fn cut(&self, from: usize, to: usize) -> usize {
        let least = self.gap(self.before_greatest(from, to)) / 2;
        let long = self.long_gaps(from, to, least);
        let gaps = to.saturating_sub(from).saturating_sub(1);
        if long > gaps / 3 || long <= LONG_GAPS {
            return to.min(from.saturating_add(EVEN_STORES));
        }
        let mut seen = 0usize;
        for store in from..to.saturating_sub(1) {
            if self.gap(store) >= least {
                seen = seen.saturating_add(1);
            }
            if seen > LONG_GAPS {
                return store.saturating_add(1);
            }
        }
        to
    }

    // The stores to be shown, from the first up to, and without, the second.
    pub fn shown(&self) -> (usize, usize) {
        let (from, to) = self.without_pause(0, self.stores.len());
        (from, self.cut(from, to))
    }
}
