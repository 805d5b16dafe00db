// The summary of stores.
ghost use Rattle.std.specs.Prelude.{◌≡◌, ◌*◌, ◌^◌, ◌<◌};
ghost use Rattle.link.specs.Summary.{bits_of, timed, noted, summed};
ghost use Rattle.link.specs.Rate.{later_bits, rate};

use crate::{Store, Summary, Times};

pub fn bits_of(e: Store) -> u64
    ensures { result ≡ bits_of e }
{
    8 * u64::from(e.bytes)
}

// A store at x after n others: the first has no gap, and the second the only one.
fn timed(n: u64, t: Times, x: u64) -> Times
    ensures { result ≡ timed n t x }
{
    let gap = x.saturating_sub(t.last);
    match n {
        0 => Times {
            first: x,
            last: x,
            least: 0,
            greatest: 0,
        },
        1 => Times {
            first: t.first,
            last: x,
            least: gap,
            greatest: gap,
        },
        _ => Times {
            first: t.first,
            last: x,
            least: t.least.min(gap),
            greatest: t.greatest.max(gap),
        },
    }
}

// One store more.
#[tactic(auto, unfolding(crate::specs::Summary::noted))]
pub fn noted(s: Summary, e: Store) -> Summary
    ensures { result ≡ noted s e }
{
    let cycles = timed(s.stores, s.cycles, e.cycle);
    let ticks = timed(s.stores, s.ticks, e.tick);
    let bits = bits_of(e);
    if s.stores == 0 {
        return Summary {
            stores: 1,
            bits,
            first_bits: bits,
            cycles,
            ticks,
        };
    }
    Summary {
        stores: s.stores.saturating_add(1),
        bits: s.bits.saturating_add(bits),
        first_bits: s.first_bits,
        cycles,
        ticks,
    }
}

#[tactic(auto, unfolding(crate::specs::Summary::summed))]
pub fn summed(s: Summary, es: &[Store]) -> Summary
    ensures { result ≡ summed s es.now }
{
    let mut sum = s;
    for e in es {
        sum = noted(sum, *e);
    }
    sum
}

// In tenths of a kb/s, rounded up: all bits but the first store's over the ticks from the first to the last, and 0 where there are none.
#[tactic(auto, unfolding(crate::specs::Rate::rate))]
pub fn rate(s: Summary, clock: u64) -> u64
    requires { later_bits s * clock < 2 ^ 64 }
    ensures { result ≡ rate s clock }
{
    let span = s.ticks.last.saturating_sub(s.ticks.first);
    if span == 0 {
        return 0;
    }
    (s.bits.saturating_sub(s.first_bits) * clock).div_ceil(span.saturating_mul(100))
}
