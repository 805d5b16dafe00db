// What makes a record bad, and what a run refuses with.
ghost use Rattle.std.specs.Prelude.{◌≡◌, not, ◌||◌, List, ℕ, ltb};
ghost use Rattle.plain.specs.Refused.{refusal_number, at_once_number};
ghost use Rattle.plain.specs.Numbers.{is_stop};
ghost use Rattle.stops.specs.Stops.{due};
ghost use Rattle.semantics.specs.Sums.{total};
ghost use Rattle.cycle.specs.Machine.{machine, most_cycles};
ghost use Rattle.refusals.specs.Numbers.{bad_step, bad_phase, bad_counts, held_away, bad, refusal, at_once};

use crate::refill::bad_refill;
use crate::under_way::bad_word;
use bits::field;
use condition::passes;
use cycle::{Control, Counts};
use memory::length::length_is_bad;
use plain::numbers::{budget_is_bad, flags_are_bad, is_counter, is_stop};
use plain::refused::Refusal;
use steps::Phase;
use stops::reason::Stop;

// A blank word has no step 2, nor has one that fails its condition.
fn bad_step(k: u32, c: Control, registers: &[u32; 15]) -> bool
    ensures { (mem : List ℕ) → result ≡ bad_step (due c.pipe.ix c.flags) k (machine registers.now c mem) }
{
    match c.pipe.ix {
        Some(word) if passes(field(word, 28, 4), c.flags) => bad_word(word, k, c, registers),
        _ => true,
    }
}

fn bad_phase(c: Control, registers: &[u32; 15]) -> bool
    ensures { (mem : List ℕ) → result ≡ bad_phase c.phase (machine registers.now c mem) }
{
    match c.phase {
        Phase::Step1 => false,
        Phase::Refill1 | Phase::Refill2 => bad_refill(c),
        Phase::Later(k) => bad_step(k, c, registers),
    }
}

// A stop held away from step 1.
fn held_away(phase: Phase, stop: u32) -> bool
    ensures { result ≡ held_away phase stop }
{
    !matches!(phase, Phase::Step1) & (stop != 0)
}

// The largest count of cycles.
const MOST_CYCLES: u64 = 0x10000000000;

// The three sums together pass the cycles.
fn sums_pass_cycles(n: Counts) -> bool
    ensures { result ≡ ltb n.cycles (total n.sums) }
{
    (n.cycles < n.sums.n)
        || (n.cycles - n.sums.n < n.sums.s)
        || (n.cycles - n.sums.n - n.sums.s < n.sums.i)
}

fn bad_counts(n: Counts) -> bool
    ensures { result ≡ bad_counts n }
{
    (MOST_CYCLES < n.cycles) | ((n.cycles < n.retired) | sums_pass_cycles(n))
}

// What is tested of the counts, the stop and the phase.
fn bad_progress(c: Control, registers: &[u32; 15]) -> bool
    ensures { (mem : List ℕ) → result ≡ (bad_counts c.counts || (not (is_stop c.stop) || (held_away c.phase c.stop || bad_phase c.phase (machine registers.now c mem)))) }
{
    bad_counts(c.counts)
        | (!is_stop(c.stop) | (held_away(c.phase, c.stop) | bad_phase(c, registers)))
}

// 11
fn bad(registers: &[u32; 15], c: Control) -> bool
    ensures { (mem : List ℕ) → result ≡ bad (machine registers.now c mem) }
{
    length_is_bad(c.board.size as usize)
        | (!is_counter(c.pipe.pc) | (flags_are_bad(c.flags) | bad_progress(c, registers)))
}

// What a run refuses with: 12, 11, 3, 13.
fn refusal(lent: usize, budget: u64, c: Control, registers: &[u32; 15]) -> Result<(), Refusal>
    ensures { (mem : List ℕ) → refusal_number result ≡ refusal lent budget (machine registers.now c mem) }
{
    if lent != c.board.size as usize {
        return Err(Refusal::OtherMemory);
    }
    if bad(registers, c) {
        return Err(Refusal::Record);
    }
    if budget_is_bad(budget) {
        return Err(Refusal::Budget);
    }
    if MOST_CYCLES < c.counts.cycles + budget {
        Err(Refusal::TooManyCycles)
    } else {
        Ok(())
    }
}

// What a call ends with before its first cycle: a refusal, else the stop held, if one is.
pub fn at_once(
    lent: usize,
    budget: u64,
    c: Control,
    registers: &[u32; 15],
) -> Result<Option<Stop>, Refusal>
    ensures { (mem : List ℕ) → at_once_number result ≡ at_once lent budget (machine registers.now c mem) }
{
    refusal(lent, budget, c, registers)?;
    Ok(Stop::try_from(c.stop).ok())
}
