// How many gaps there were of each length: four bins to an octave, and below 8 each length for itself.
use crate::logarithm::floor;
use std::alloc::{AllocError, Global};

const BINS: usize = 252;

#[derive(Drop)]
pub struct Gaps {
    counts: Vec<u64>,
    pub least: u64,
    pub greatest: u64,
}

// A bin that is not empty: gaps from `from` up to, and without, `to`.
#[derive(Clone, Copy)]
pub struct Bin {
    pub from: u64,
    pub to: u64,
    pub count: u64,
}

fn bin_of(gap: u64) -> usize {
    if gap < 4 {
        return gap as usize;
    }
    let octave = floor(gap);
    let quarter = gap.wrapping_shr(octave.saturating_sub(2)) % 4;
    (octave as usize)
        .saturating_sub(1)
        .saturating_mul(4)
        .saturating_add(quarter as usize)
}

fn edge(bin: u64) -> u64 {
    if bin < 4 {
        return bin;
    }
    let quarter = 4 + bin % 4;
    let doubled = (bin / 4).saturating_sub(1);
    let mut edge = quarter;
    for _ in 0..doubled {
        edge = edge.saturating_mul(2);
    }
    edge
}

impl Gaps {
    pub fn new(alloc: Global) -> Result<Gaps, AllocError> {
        Ok(Gaps {
            counts: vec![in alloc; 0u64; BINS]?,
            least: u64::MAX,
            greatest: 0,
        })
    }

    pub fn count(&mut self, gap: u64) {
        self.least = self.least.min(gap);
        self.greatest = self.greatest.max(gap);
        if let Some(count) = self.counts.get_mut(bin_of(gap)) {
            *count = count.saturating_add(1);
        }
    }

    pub fn is_empty(&self) -> bool {
        self.least > self.greatest
    }

    // Of the fullest bin.
    pub fn most(&self) -> u64 {
        let mut most = 0;
        for count in self.counts.iter() {
            most = most.max(*count);
        }
        most
    }

    // Where the bins begin and end that are not empty.
    pub fn reach(&self) -> (u64, u64) {
        let first = bin_of(self.least.min(self.greatest)) as u64;
        let last = bin_of(self.greatest) as u64;
        (edge(first), edge(last.saturating_add(1)))
    }

    pub fn bin(&self, bin: usize) -> Option<Bin> {
        let count = self.counts.get(bin).copied().unwrap_or(0);
        if count == 0 {
            return None;
        }
        let bin = bin as u64;
        Some(Bin {
            from: edge(bin),
            to: edge(bin.saturating_add(1)),
            count,
        })
    }

    pub fn bins(&self) -> usize {
        self.counts.len()
    }
}
