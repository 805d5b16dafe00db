// A cycle: the fetch, what the phase does, and the one place where the next core is built.
ghost use Rattle.std.specs.Prelude.{◌≡◌, List, ℕ, ◌+◌, ◌<◌, ◌^◌};
ghost use Rattle.bits.specs.Bits.{num};
ghost use Rattle.memory.specs.Memory.{Memory, memory_of};
ghost use Rattle.semantics.specs.Sums.{plus, total};
ghost use Rattle.steps.specs.declared.Ended.{Ended};
ghost use Rattle.steps.specs.declared.Ended.TheVariants.{Executed};
ghost use Rattle.steps.specs.declared.After.TheVariants.{Done};
ghost use Rattle.steps.specs.Steps.{own};
ghost use Rattle.cycle.specs.Machine.{machine};
ghost use Rattle.cycle.specs.Room.{Summable, Countable, InOneStep};
ghost use Rattle.cycle.specs.Cycle.{fetch, fetches, own_of, pipe_after, phase_after, retired_by, ended_sums, sums_after, counts_after, close, cycle};

use crate::own::{refilled, step_under_way, step1};
use crate::stop::is_step1;
use crate::{Control, Counts, Pipe};
use datapath::counter::{ahead, counter};
use memory::{Board, fetch};
use semantics::Sums;
use semantics::kinds::{nsi, sums_of};
use steps::ending::still;
use steps::{After, Ended, Phase, Step};

// IR2 becomes IR1, IR1 the word at PC, PC+4.
fn fetched(p: Pipe, memory: &[u8], board: Board) -> Pipe
    ensures { result ≡ fetch p (memory_of board memory.now) }
{
    Pipe {
        pc: ahead(p.pc, 4),
        ir1: fetch(memory, board, p.pc),
        ir2: p.ir1,
        ..p
    }
}

// What the cycle of a phase leaves: the pipe after its fetch, and the step.
#[derive(Clone, Copy)]
struct PhaseDone {
    pipe: Pipe,
    step: Step,
}

// The fetch runs in step 1 and both refills. One match does the fetch and the step: with one for each, the loop of a run tests the phase twice, and a
// cycle takes up to half as long again (docs/DECISIONS.md 195).
#[tactic(auto, unfolding(crate::specs::Cycle::own_of))]
fn phase_done(c: Control, registers: &mut [u32; 15], memory: &mut [u8]) -> PhaseDone
    ensures pipe { result.pipe ≡ fetches c.phase c.pipe (memory_of c.board memory.old) }
    ensures step { own registers.new result.step (memory_of c.board memory.new) ≡ own_of c.phase (machine registers.old c memory.old) }
{
    match c.phase {
        Phase::Step1 => PhaseDone {
            pipe: fetched(c.pipe, memory, c.board),
            step: step1(c, registers),
        },
        Phase::Refill1 => PhaseDone {
            pipe: fetched(c.pipe, memory, c.board),
            step: still(c.flags, After::More(Phase::Refill2)),
        },
        Phase::Refill2 => PhaseDone {
            pipe: fetched(c.pipe, memory, c.board),
            step: still(c.flags, After::Done(refilled(c.pipe.ix))),
        },
        Phase::Later(k) => PhaseDone {
            pipe: c.pipe,
            step: step_under_way(c, k, registers, memory),
        },
    }
}

// A stored counter replaces PC; after the last cycle IX takes the old IR1 if there was a fetch, else IR2: each time what
// IR2 is now.
fn pipe_after(after: After, p: Pipe) -> Pipe
    ensures { result ≡ pipe_after after p }
{
    match after {
        After::More(_) => p,
        After::Done(_) => Pipe { ix: p.ir2, ..p },
        After::Jump(word) => Pipe {
            pc: counter(word),
            ..p
        },
    }
}

fn phase_after(after: After) -> Phase
    ensures { result ≡ phase_after after }
{
    match after {
        After::More(phase) => phase,
        After::Done(_) => Phase::Step1,
        After::Jump(_) => Phase::Refill1,
    }
}

// An instruction is retired in its last cycle; a start retires nothing.
fn retires(after: After) -> bool
    ensures { (k : ℕ) → retired_by after k ≡ k + num result }
{
    matches!(after, After::Done(Ended::Skipped | Ended::Executed(_)))
}

// What a word adds that was executed in more steps than the first, or in refills.
fn sums_of_word(m: u32, ix: Option<u32>) -> Sums
    ensures sums { result ≡ ended_sums (Executed m) ix }
    ensures short { total result < 2 ^ 33 }
{
    match ix {
        Some(word) => sums_of(word, m),
        None => nsi(0, 0, 0),
    }
}

// One that is done in step 1 adds S, whatever its word: that is most of what a call of one cycle retires, and the word need not be read again.
fn sums_executed(m: u32, phase: Phase, ix: Option<u32>, q: Sums) -> Sums
    requires { InOneStep phase (Executed m) ix × Summable q }
    ensures { result ≡ plus q (ended_sums (Executed m) ix) }
{
    if is_step1(phase) {
        nsi(q.n, q.s + 1, q.i)
    } else {
        let more = sums_of_word(m, ix);
        nsi(q.n + more.n, q.s + more.s, q.i + more.i)
    }
}

fn sums_ended(ended: Ended, phase: Phase, ix: Option<u32>, q: Sums) -> Sums
    requires { InOneStep phase ended ix × Summable q }
    ensures { result ≡ plus q (ended_sums ended ix) }
{
    match ended {
        Ended::Start => nsi(q.n + 1, q.s + 1, q.i),
        Ended::Skipped => nsi(q.n, q.s + 1, q.i),
        Ended::Executed(m) => sums_executed(m, phase, ix, q),
    }
}

// The sums rise where an instruction retires, and where the start ends.
fn sums_after(after: After, phase: Phase, ix: Option<u32>, q: Sums) -> Sums
    requires { ((e : Ended) → after ≡ Done e → InOneStep phase e ix) × Summable q }
    ensures { result ≡ sums_after after ix q }
{
    match after {
        After::Done(ended) => sums_ended(ended, phase, ix, q),
        After::More(_) | After::Jump(_) => q,
    }
}

fn counts_after(after: After, phase: Phase, ix: Option<u32>, n: Counts) -> Counts
    requires { ((e : Ended) → after ≡ Done e → InOneStep phase e ix) × Countable n }
    ensures { result ≡ counts_after after ix n }
{
    Counts {
        cycles: n.cycles + 1,
        retired: n.retired + u64::from(retires(after)),
        sums: sums_after(after, phase, ix, n.sums),
    }
}

// The next core: what the cycle did, the pipe after its fetch, and the counts.
fn close(s: Step, p: Pipe, c: Control) -> Control
    requires { ((e : Ended) → s.after ≡ Done e → InOneStep c.phase e c.pipe.ix) × Countable c.counts }
    ensures { (g : List ℕ) (mem : Memory) → machine g result mem.bytes ≡ close (own g s mem) p c }
{
    let counts = counts_after(s.after, c.phase, c.pipe.ix, c.counts);
    Control {
        flags: s.flags,
        pipe: pipe_after(s.after, p),
        phase: phase_after(s.after),
        latches: s.latches,
        counts,
        ..c
    }
}

pub fn cycle(c: Control, registers: &mut [u32; 15], memory: &mut [u8]) -> Control
    requires { Countable c.counts }
    ensures { machine registers.new result memory.new ≡ cycle (machine registers.old c memory.old) }
{
    let done = phase_done(c, registers, memory);
    close(done.step, done.pipe, c)
}
