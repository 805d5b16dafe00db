// What the cycle of a phase does besides the fetch.
#![tactic(auto, unfolding(crate::specs::Cycle::own_of, stops::specs::Stops::due))]

ghost use Rattle.std.specs.Prelude.{◌≡◌, List, ℕ};
ghost use Rattle.steps.specs.declared.Phase.TheVariants.{Step1, Later};
ghost use Rattle.memory.specs.Memory.{memory_of};
ghost use Rattle.cycle.specs.Machine.{machine};
ghost use Rattle.steps.specs.Steps.{own};
ghost use Rattle.cycle.specs.Cycle.{refilled, skips, own_of};

use crate::Control;
use bits::field;
use condition::passes;
use datapath::counter::R15;
use steps::ending::still;
use steps::first::first_step;
use steps::later::later_step;
use steps::{After, Ended, Found, Step};

// How a failed condition ends, at A+8 in pc: its one step is done, and the counter goes on.
fn skips(pc: u32) -> After
    ensures { result ≡ skips pc }
{
    After::Done(Ended::Skipped)
}

pub fn step1(c: Control, registers: &mut [u32; 15]) -> Step
    ensures { (mem : List ℕ) → own registers.new result (memory_of c.board mem) ≡ own_of Step1 (machine registers.old c mem) }
{
    match c.pipe.ix {
        Some(word) => {
            if passes(field(word, 28, 4), c.flags) {
                let r15 = R15 {
                    flags: c.flags,
                    pc: c.pipe.pc,
                };
                first_step(word, registers, r15)
            } else {
                still(c.flags, skips(c.pipe.pc))
            }
        }
        None => still(c.flags, After::Done(Ended::Start)),
    }
}

pub fn step_under_way(c: Control, k: u32, registers: &mut [u32; 15], memory: &mut [u8]) -> Step
    ensures { own registers.new result (memory_of c.board memory.new) ≡ own_of (Later k) (machine registers.old c memory.old) }
{
    match c.pipe.ix {
        Some(word) => {
            let found = Found {
                flags: c.flags,
                pc: c.pipe.pc,
                latches: c.latches,
                board: c.board,
            };
            later_step(word, k, registers, memory, found)
        }
        None => still(c.flags, After::Done(Ended::Start)),
    }
}

// A refill with IX blank is the start's.
pub fn refilled(ix: Option<u32>) -> Ended
    ensures { result ≡ refilled ix }
{
    match ix {
        Some(_) => Ended::Executed(0),
        None => Ended::Start,
    }
}
