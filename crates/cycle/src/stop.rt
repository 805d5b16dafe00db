// The stop found before step 1.
#![tactic(auto, unfolding(crate::specs::StopFound::stop_found))]

ghost use Rattle.std.specs.Prelude.{◌≡◌, List, ℕ};
ghost use Rattle.stops.specs.Numbers.{stop_number};
ghost use Rattle.cycle.specs.Machine.{machine};
ghost use Rattle.cycle.specs.StopFound.{is_step1};
ghost use Rattle.cycle.specs.StopFound.{stop_found};

use crate::Control;
use datapath::counter::behind;
use registers::Context;
use steps::Phase;
use stops::reason::Stop;
use stops::stop::stop_for;

pub fn is_step1(phase: Phase) -> bool
    ensures { result ≡ is_step1 phase }
{
    matches!(phase, Phase::Step1)
}

// A stop is found before step 1 and nowhere else.
pub fn stop_found(c: Control, registers: &[u32; 15]) -> Result<(), Stop>
    ensures { (mem : List ℕ) → stop_number result ≡ stop_found (machine registers.now c mem) }
{
    if is_step1(c.phase) {
        let found = Context {
            flags: c.flags,
            a: behind(c.pipe.pc, 8),
            board: c.board,
        };
        stop_for(c.pipe.ix, registers, found)
    } else {
        Ok(())
    }
}
