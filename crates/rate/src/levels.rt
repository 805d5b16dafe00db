// An option's level as the stores come, for who draws it.
ghost use Rattle.std.specs.Prelude.{◌≡◌, ◌≤◌, ◌*◌};
ghost use Rattle.link.specs.Summary.{Word};
ghost use Rattle.link.specs.Buffer.{level_after};
ghost use Rattle.link.specs.Fold.{Limited, most_stores};

use link::summaries::bits_of;
use link::{Line, Store};

// After a store, from the level after the one at a tick, in bits times the clock. Within the limits it is the buffer's; beyond them it stays below 2^64.
pub fn level(o: Line, before: u64, tick: u64, e: Store) -> u64
    ensures { Limited o → Word e → before ≤ 32 * o.clock * most_stores → result ≡ level_after o before tick e }
{
    let ticks = e.tick.saturating_sub(tick);
    let drain = o.kilobits.saturating_mul(1000).saturating_mul(ticks);
    let bits = bits_of(e).saturating_mul(o.clock);
    before.saturating_sub(drain).saturating_add(bits)
}
