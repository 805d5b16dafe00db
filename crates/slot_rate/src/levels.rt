// What stands in each option's buffer as the stores come, for the picture.
use crate::arguments::Request;
use link::{Line, Store};
use rate::levels::level;

// In bits times the clock, after the last store and its tick.
#[derive(Clone, Copy)]
pub struct Levels {
    of: [u64; 32],
    tick: u64,
}

impl Levels {
    pub fn new() -> Levels {
        Levels {
            of: [0; 32],
            tick: 0,
        }
    }

    // The next store.
    pub fn add(&mut self, request: &Request<'_>, store: Store) {
        let rates = request.options.rates.iter().take(request.options.count);
        for (at, rate) in self.of.iter_mut().zip(rates) {
            let line = Line {
                kilobits: u64::from(*rate),
                clock: request.clock,
                words: request.words,
            };
            *at = level(line, *at, self.tick, store);
        }
        self.tick = store.tick;
    }

    pub fn first(&self, count: usize) -> &[u64] {
        self.of.get(..count).unwrap_or(&[])
    }
}
