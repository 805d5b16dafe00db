// Stores put one after the other into a lent array, as far as they go into the window.
ghost use Rattle.std.specs.Prelude.{◌≡◌, ◌+◌, ◌<◌, ◌≤◌, ◌^◌, length, [], ◌∷◌};
ghost use Rattle.link.specs.Window.{handed};
ghost use Rattle.stores.specs.Writes.{burst};
ghost use Rattle.watch.specs.Told.{Tells};

use link::windows::within;
use link::{Store, Window};
use stores::coming::place;
use transfer::block::next;

// One store, if it goes into the window.
pub fn tell(found: &mut [Store], told: usize, w: Window, e: Store) -> usize
    requires { told < length found.old }
    ensures tells { Tells told found.old result found.new (handed w (e ∷ [])) }
    ensures upper_bound { result ≤ told + 1 }
    ensures lower_bound { told ≤ result }
{
    if !within(w, e.address) {
        return told;
    }
    found[told] = e;
    told + 1
}

// n stores, of so many bytes each, in cycle and tick after cycle and tick.
pub fn tell_burst(found: &mut [Store], told: usize, w: Window, n: u32, first: Store) -> usize
    requires { (told + n ≤ length found.old) × (first.cycle + n < 2 ^ 64) × (first.tick + n < 2 ^ 64) }
    ensures tells { Tells told found.old result found.new (handed w (burst n first.bytes first.address first.cycle first.tick)) }
    ensures upper_bound { result ≤ told + n }
    ensures lower_bound { told ≤ result }
{
    let mut count = told;
    let mut e = first;
    for _left in 0..n {
        let store = Store {
            address: place(e.bytes, e.address),
            ..e
        };
        count = tell(found, count, w, store);
        e = Store {
            cycle: e.cycle + 1,
            tick: e.tick + 1,
            address: next(e.address),
            ..e
        };
    }
    count
}
