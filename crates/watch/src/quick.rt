// The quick road of a watched run: whole instructions, each of which tells its stores before it is done.
ghost use Rattle.std.specs.Prelude.{◌≡◌, ◌+◌, ◌≤◌, ◌<◌, ◌^◌, length, List};
ghost use Rattle.plain.specs.Whole.{going};
ghost use Rattle.semantics.specs.declared.Sums.{Sums};
ghost use Rattle.semantics.specs.Sums.{ticks};
ghost use Rattle.link.specs.Window.{handed};
ghost use Rattle.stores.specs.Planned.{stores_of};
ghost use Rattle.watch.specs.Told.{Tells};
ghost use Rattle.watch.specs.Quick.{Goes};

use crate::due::tell_due;
use link::{Store, Window};
use plain::whole::{LONGEST, wholes};
use registers::Context;
use semantics::Tally;

// Where whole instructions came to: how many, in how many cycles, what their tally tells, and how many stores are told then.
#[derive(Clone, Copy)]
pub struct Through {
    pub flags: u32,
    pub a: u32,
    pub done: u64,
    pub used: u64,
    pub tally: Tally,
    pub told: usize,
}

// The most stores of an instruction.
const MOST: usize = 16;

// While the longest fits into the budget of cycles, and its stores into the lent ones, and up to one that meets a stop.
pub fn tell_wholes(
    registers: &mut [u32; 15],
    memory: &mut [u8],
    from: Context,
    budget: u64,
    found: &mut [Store],
    told: usize,
    w: Window,
    before: u64,
    ticked: u64,
) -> Through
    requires { (budget < 2 ^ 61) × (before < 2 ^ 61) × (ticked < 2 ^ 61) × (told ≤ length found.old) }
    ensures through { Goes (going registers.old from.flags from.a from.board memory.old) result.done result.used result.tally (going registers.new result.flags result.a from.board memory.new) }
    ensures within { result.used ≤ budget }
    ensures tells { (q : Sums) → ticked ≡ ticks q → Tells told found.old result.told found.new (handed w (stores_of before q (going registers.old from.flags from.a from.board memory.old) result.done)) }
    ensures upper_bound { result.told ≤ length found.new }
    ensures length { length found.new ≡ length found.old }
{
    let mut flags = from.flags;
    let mut a = from.a;
    let mut left = budget;
    let mut done: u64 = 0;
    let mut tally = Tally::default();
    let mut count = told;
    while LONGEST <= left && MOST <= found.len() - count {
        let used = budget - left;
        let at = Context { flags, a, ..from };
        let more = tell_due(
            memory,
            registers,
            at,
            found,
            count,
            w,
            before + used,
            ticked + used + tally.n,
        );
        let mut one = Tally::default();
        let came = wholes(registers, memory, at, 1, left, &mut one);
        if came.stop.is_some() {
            break;
        }
        flags = came.flags;
        a = came.a;
        left -= came.used;
        done += 1;
        tally = Tally {
            n: tally.n + one.n,
            extra: tally.extra + one.extra,
        };
        count = more;
    }
    Through {
        flags,
        a,
        done,
        used: budget - left,
        tally,
        told: count,
    }
}
