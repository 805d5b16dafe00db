// The buffer that an option empties, in one walk over the stores, and the verdict on the option.
ghost use Rattle.std.specs.Prelude.{◌≡◌, ◌+◌, ◌*◌, ◌≤◌, List, length, All};
ghost use Rattle.bits.specs.Choice.{pick};
ghost use Rattle.link.specs.declared.Store.{Store};
ghost use Rattle.link.specs.Summary.{Word};
ghost use Rattle.link.specs.Buffer.{holds, level_after, verdict_of, carries};
ghost use Rattle.link.specs.Fold.{empty, measured, taken, all_taken, Limited, Filled, Room};

use crate::summaries::bits_of;
use crate::{Buffer, Line, Store, Verdict};

fn holds(o: Line) -> u64
    requires { Limited o }
    ensures { result ≡ holds o }
{
    32 * o.words * o.clock
}

fn pick(test: bool, a: u64, b: u64) -> u64
    ensures { result ≡ pick test a b }
{
    if test { a } else { b }
}

// First the drain, then the store's bits.
fn level_after(o: Line, b: Buffer, e: Store) -> u64
    requires line { Limited o }
    requires word { Word e }
    requires room { Room o b 1 }
    ensures { result ≡ level_after o b.level b.tick e }
{
    let ticks = e.tick.saturating_sub(b.tick);
    let drain = (1000 * o.kilobits).saturating_mul(ticks);
    b.level.saturating_sub(drain) + bits_of(e) * o.clock
}

fn measured(o: Line, b: Buffer, tick: u64, level: u64) -> Buffer
    requires line { Limited o }
    requires room { Room o b 1 }
    ensures { result ≡ measured o b tick level }
{
    let number = b.stores + 1;
    let over = b.overflow == 0 && level > holds(o);
    Buffer {
        stores: number,
        level,
        tick,
        greatest: b.greatest.max(level),
        peak: pick(level > b.greatest, number, b.peak),
        overflow: pick(over, number, b.overflow),
        overflow_tick: pick(over, tick, b.overflow_tick),
    }
}

// One store more.
#[tactic(auto, unfolding(crate::specs::Fold::taken))]
pub fn taken(o: Line, b: Buffer, e: Store) -> Buffer
    requires line { Limited o }
    requires word { Word e }
    requires room { Room o b 1 }
    ensures value { result ≡ taken o b e }
    ensures filled { Filled o result }
    ensures stores { result.stores ≡ b.stores + 1 }
{
    measured(o, b, e.tick, level_after(o, b, e))
}

pub fn all_taken(o: Line, b: Buffer, es: &[Store]) -> Buffer
    requires line { Limited o }
    requires words { All Word es.now }
    requires room { Room o b (length es.now) }
    ensures value { result ≡ all_taken o b es.now }
    ensures filled { Filled o result }
    ensures stores { result.stores ≡ b.stores + length es.now }
{
    let mut after = b;
    for e in es {
        after = taken(o, after, *e);
    }
    after
}

pub fn verdict(o: Line, b: Buffer) -> Verdict
    requires { Limited o }
    ensures { (es : List Store) → b ≡ all_taken o empty es → result ≡ verdict_of o es }
{
    Verdict {
        backlog: b.greatest.div_ceil(o.clock),
        grows: b.stores / 2 < b.peak,
        overflow: b.overflow,
        overflow_tick: b.overflow_tick,
    }
}

pub fn carries(v: Verdict) -> bool
    ensures { result ≡ carries v }
{
    v.overflow == 0 && !v.grows
}
