// The quick road of a run: whole instructions by the plain machine's loop, where the core stands between two and the longest fits.
ghost use Rattle.std.specs.Prelude.{◌≡◌, ◌&&◌, List, ℕ, ◌+◌, ◌≤◌, ◌<◌, ◌^◌, leb};
ghost use Rattle.plain.specs.Machine as plain;
ghost use Rattle.plain.specs.Whole.{longest};
ghost use Rattle.cycle.specs.Machine.{machine, most_cycles};
ghost use Rattle.semantics.specs.Sums.{total};
ghost use Rattle.semantics.specs.Tally.{told_by};
ghost use Rattle.runs.specs.Boundary.{boundary};
ghost use Rattle.runs.specs.Whole.{stretch, same, stands, counts_on, skipped};

use crate::Advanced;
use cycle::stop::is_step1;
use cycle::{Control, Counts, Pipe};
use datapath::counter::{COUNTERS, ahead, behind};
use memory::fetch;
use memory::length::MOST_BYTES;
use plain::Came;
use plain::whole::{LONGEST, wholes};
use registers::Context;
use semantics::{Sums, Tally};
use steps::{Latches, Phase};

// About to do step 1: no stop held, nothing latched, and the pipe holds what fetches would give now.
#[tactic(auto, unfolding(crate::specs::Whole::stands))]
fn stands(c: Control, memory: &[u8]) -> bool
    ensures { result ≡ stands c memory.now }
{
    if !is_step1(c.phase) {
        return false;
    }
    let a = behind(c.pipe.pc, 8);
    let clear = (c.stop == 0)
        & (c.latches.address == 0)
        & (c.latches.datum == 0)
        & (c.latches.base == 0);
    let sized = (c.pipe.pc < COUNTERS) & (c.board.size <= MOST_BYTES as u32);
    let word = fetch(memory, c.board, a);
    let ahead1 = fetch(memory, c.board, ahead(a, 4));
    let filled = (c.pipe.ix == word) & (c.pipe.ir2 == word) & (c.pipe.ir1 == ahead1);
    clear & sized & filled
}

// Where whole instructions may begin and the longest fits.
pub fn may_skip(c: Control, memory: &[u8], budget: u64) -> bool
    ensures { result ≡ (leb longest budget && stands c memory.now) }
{
    LONGEST <= budget && stands(c, memory)
}

// The boundary core.
#[tactic(auto, unfolding(crate::specs::Boundary::boundary))]
pub fn control_at(c: Context, counts: Counts, memory: &[u8]) -> Control
    ensures { (g : List ℕ) (stop : ℕ) → machine g result memory.now ≡ boundary (plain.machine (plain.plain g c.a c.flags stop c.board) memory.now) counts }
{
    let word = fetch(memory, c.board, c.a);
    let next = fetch(memory, c.board, ahead(c.a, 4));
    let pipe = Pipe {
        pc: ahead(c.a, 8),
        ir1: next,
        ir2: word,
        ix: word,
    };
    Control {
        flags: c.flags,
        pipe,
        phase: Phase::Step1,
        latches: Latches::default(),
        counts,
        stop: 0,
        board: c.board,
    }
}

// The counts after whole instructions: each has one access of its own, and what is no access is internal.
pub fn counts_on(n: Counts, came: Came, w: Tally) -> Counts
    requires { (n.cycles + came.used < 2 ^ 63) × (n.retired + came.done < 2 ^ 63) × (n.sums.n + came.used < 2 ^ 63) × (n.sums.s + came.used < 2 ^ 63) × (n.sums.i + came.used < 2 ^ 63) × (w.n ≤ came.done + w.extra) × (came.done + w.extra ≤ came.used) }
    ensures { result ≡ counts_on came.used came.done (told_by w came.done came.used) n }
{
    let accesses = came.done + w.extra;
    let sums = Sums {
        n: n.sums.n + w.n,
        s: n.sums.s + (accesses - w.n),
        i: n.sums.i + (came.used - accesses),
    };
    Counts {
        cycles: n.cycles + came.used,
        retired: n.retired + came.done,
        sums,
    }
}

// Whole instructions where the core stands between two and the longest fits, else nothing.
pub fn skip(c: Control, registers: &mut [u32; 15], memory: &mut [u8], budget: u64) -> Advanced
    requires { (c.counts.cycles + budget ≤ most_cycles) × (c.counts.retired ≤ c.counts.cycles) × (total c.counts.sums + budget < 2 ^ 62) }
    ensures { stretch result.used (machine registers.new result.control memory.new) ≡ skipped budget (machine registers.old c memory.old) }
{
    if may_skip(c, memory, budget) {
        let from = Context {
            flags: c.flags,
            a: behind(c.pipe.pc, 8),
            board: c.board,
        };
        let mut w = Tally::default();
        let came = wholes(registers, memory, from, budget, budget, &mut w);
        let counts = counts_on(c.counts, came, w);
        let to = Context {
            flags: came.flags,
            a: came.a,
            ..from
        };
        let control = control_at(to, counts, memory);
        return Advanced {
            control,
            used: came.used,
        };
    }
    Advanced {
        control: c,
        used: 0,
    }
}
