// Cycles until the budget is spent or a stop is found, as any run, and the stores of these cycles into a window.
ghost use Rattle.std.specs.Prelude.{◌≡◌, ◌+◌, ◌*◌, ◌≤◌, ◌<◌, ◌^◌, length, take, None, List, ℕ, ◌-◌};
ghost use Rattle.cycle.specs.Machine.{machine, most_cycles};
ghost use Rattle.semantics.specs.Sums.{total, ticks};
ghost use Rattle.plain.specs.Told.{ran_to};
ghost use Rattle.plain.specs.Running.{more_by};
ghost use Rattle.runs.specs.Run.{run_from, reach};
ghost use Rattle.link.specs.Window.{handed};
ghost use Rattle.stores.specs.Coming.{steps_done, stored_by, stored};
ghost use Rattle.watch.specs.Told.{Tells};

use crate::Watched;
use crate::quick::tell_wholes;
use crate::tell::tell;
use cycle::Control;
use cycle::cycle::cycle;
use cycle::stop::stop_found;
use datapath::counter::behind;
use link::{Store, Window};
use plain::{Came, Ran};
use registers::Context;
use runs::quick::{control_at, counts_on, may_skip};
use semantics::Sums;
use steps::Phase;
use stores::coming::coming;

// A core under way, the cycles used to come there, and the stores told then.
#[derive(Clone, Copy)]
struct Advanced {
    used: u64,
    told: usize,
    control: Control,
}

fn ticks(q: Sums) -> u64
    requires { total q < 2 ^ 60 }
    ensures { result ≡ ticks q }
{
    2 * q.n + q.s + q.i
}

// Whole instructions where the core stands between two and the longest fits, else nothing.
fn tell_skip(
    c: Control,
    registers: &mut [u32; 15],
    memory: &mut [u8],
    budget: u64,
    found: &mut [Store],
    told: usize,
    w: Window,
) -> Advanced
    requires { (c.counts.cycles + budget ≤ most_cycles) × (c.counts.retired ≤ c.counts.cycles) × (total c.counts.sums + budget < 2 ^ 60) × (told ≤ length found.old) }
    ensures reaches { machine registers.new result.control memory.new ≡ reach (machine registers.old c memory.old) result.used }
    ensures goes { run_from budget (machine registers.old c memory.old) ≡ more_by result.used (run_from (budget - result.used) (machine registers.new result.control memory.new)) }
    ensures within { result.used ≤ budget }
    ensures tells { Tells told found.old result.told found.new (handed w (stored (machine registers.old c memory.old) result.used)) }
    ensures upper_bound { result.told ≤ length found.new }
    ensures length { length found.new ≡ length found.old }
{
    if may_skip(c, memory, budget) {
        let from = Context {
            flags: c.flags,
            a: behind(c.pipe.pc, 8),
            board: c.board,
        };
        let to = tell_wholes(
            registers,
            memory,
            from,
            budget,
            found,
            told,
            w,
            c.counts.cycles,
            ticks(c.counts.sums),
        );
        let came = Came {
            stop: None,
            flags: to.flags,
            a: to.a,
            done: to.done,
            used: to.used,
        };
        let counts = counts_on(c.counts, came, to.tally);
        let there = Context {
            flags: to.flags,
            a: to.a,
            ..from
        };
        let control = control_at(there, counts, memory);
        return Advanced {
            used: to.used,
            told: to.told,
            control,
        };
    }
    Advanced {
        used: 0,
        told,
        control: c,
    }
}

fn steps_done(phase: Phase) -> u32
    ensures { result ≡ steps_done phase }
{
    match phase {
        Phase::Later(k) => k,
        Phase::Step1 | Phase::Refill1 | Phase::Refill2 => 0,
    }
}

// What the coming cycle stores, if it goes into the window.
fn tell_coming(c: Control, found: &mut [Store], told: usize, w: Window) -> usize
    requires { (told < length found.old) × (c.counts.cycles < 2 ^ 62) × (total c.counts.sums < 2 ^ 60) }
    ensures tells { (g mem : List ℕ) → Tells told found.old result found.new (handed w (stored_by (machine g c mem))) }
    ensures upper_bound { result ≤ told + 1 }
    ensures length { length found.new ≡ length found.old }
{
    let e = coming(c);
    if e.bytes == 0 {
        return told;
    }
    let store = Store {
        cycle: c.counts.cycles + 1,
        tick: ticks(c.counts.sums) + 4 + u64::from(steps_done(c.phase)),
        address: e.address,
        bytes: e.bytes,
    };
    tell(found, told, w, store)
}

// The lent stores have room for one in each cycle.
pub fn watch_from(
    c: Control,
    registers: &mut [u32; 15],
    memory: &mut [u8],
    budget: u64,
    w: Window,
    found: &mut [Store],
) -> Watched
    requires { (c.counts.cycles + budget ≤ most_cycles) × (c.counts.retired ≤ c.counts.cycles) × (total c.counts.sums + 36 * budget ≤ 37 * most_cycles) × (budget ≤ length found.old) }
    ensures run { ran_to (λ d. machine registers.new d memory.new) result.ran ≡ run_from budget (machine registers.old c memory.old) }
    ensures stores { take result.told found.new ≡ handed w (stored (machine registers.old c memory.old) result.ran.used) }
    ensures few { result.told ≤ length found.new }
    ensures reaches { result.ran.stop ≡ None → machine registers.new result.ran.machine memory.new ≡ reach (machine registers.old c memory.old) result.ran.used }
{
    let mut at = c;
    let mut used: u64 = 0;
    let mut told: usize = 0;
    while used < budget {
        let far = tell_skip(at, registers, memory, budget - used, found, told, w);
        at = far.control;
        used += far.used;
        told = far.told;
        if used < budget {
            if let Err(stop) = stop_found(at, registers) {
                let machine = Control {
                    stop: stop.into(),
                    ..at
                };
                let ran = Ran {
                    stop: Some(stop),
                    used,
                    machine,
                };
                return Watched { ran, told };
            }
            told = tell_coming(at, found, told, w);
            at = cycle(at, registers, memory);
            used += 1;
        }
    }
    let ran = Ran {
        stop: None,
        used,
        machine: at,
    };
    Watched { ran, told }
}
