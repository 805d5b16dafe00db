// The cycles left of the instruction or refill under way, to the next boundary.
ghost use Rattle.std.specs.Prelude.{◌≡◌, List, ℕ, suc};
ghost use Rattle.cycle.specs.Machine.{machine};
ghost use Rattle.runs.specs.CyclesLeft.{rest, cycles_left};

use cycle::Control;
use semantics::duration::duration_of;
use steps::Phase;

// Before step k + 2 of the word in IX.
fn rest(ix: Option<u32>, k: u32, registers: &[u32; 15]) -> u64
    ensures { result ≡ rest ix (suc k) registers.now }
{
    match ix {
        Some(word) => {
            let duration = duration_of(word, registers);
            u64::from(duration.saturating_sub(k).saturating_sub(1))
        }
        None => 0,
    }
}

#[tactic(auto, using(crate::proofs::CyclesLeft::left_as))]
pub fn cycles_left(c: Control, registers: &[u32; 15]) -> u64
    ensures { (mem : List ℕ) → result ≡ cycles_left (machine registers.now c mem) }
{
    match c.phase {
        Phase::Step1 => 0,
        Phase::Refill1 => 2,
        Phase::Refill2 => 1,
        Phase::Later(k) => rest(c.pipe.ix, k, registers),
    }
}
