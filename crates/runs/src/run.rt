// Cycles until the budget is spent or a stop is found.
ghost use Rattle.std.specs.Prelude.{◌≡◌, ◌+◌, ◌≤◌};
ghost use Rattle.cycle.specs.Machine.{machine, most_cycles};
ghost use Rattle.semantics.specs.Sums.{total};
ghost use Rattle.plain.specs.Told.{ran_to};
ghost use Rattle.runs.specs.Run.{run_from};

use crate::quick::skip;
use cycle::Control;
use cycle::cycle::cycle;
use cycle::stop::stop_found;
use plain::Ran;

// Cycles until the budget is spent or a stop is found, and on from each boundary whole instructions while the longest fits. So a
// host's write between calls, after which the pipe holds other words than memory, costs the cycles to the next boundary. The registers
// are lent, so that no cycle copies them.
pub fn run_from(
    c: Control,
    registers: &mut [u32; 15],
    memory: &mut [u8],
    budget: u64,
) -> Ran<Control>
    requires { (c.counts.cycles + budget ≤ most_cycles) × (c.counts.retired ≤ c.counts.cycles) × (total c.counts.sums ≤ c.counts.cycles) }
    ensures { ran_to (λ d. machine registers.new d memory.new) result ≡ run_from budget (machine registers.old c memory.old) }
{
    let mut at = c;
    let mut used: u64 = 0;
    while used < budget {
        let far = skip(at, registers, memory, budget - used);
        at = far.control;
        used += far.used;
        if used < budget {
            if let Err(stop) = stop_found(at, registers) {
                return Ran {
                    stop: Some(stop),
                    used,
                    machine: Control {
                        stop: stop.into(),
                        ..at
                    },
                };
            }
            at = cycle(at, registers, memory);
            used += 1;
        }
    }
    Ran {
        stop: None,
        used,
        machine: at,
    }
}
