// A run of any length that folds its stores into a summary: by pieces, whose stores have room on the stack.
ghost use Rattle.std.specs.Prelude.{◌≡◌, ◌+◌, ◌*◌, ◌≤◌, length};
ghost use Rattle.cycle.specs.Machine.{machine, most_cycles};
ghost use Rattle.semantics.specs.Sums.{total};
ghost use Rattle.plain.specs.Told.{ran_to};
ghost use Rattle.runs.specs.Run.{run_from};
ghost use Rattle.watch.specs.Rated.{rated, rate_from};

use crate::run::watch_from;
use cycle::Control;
use link::summaries::summed;
use link::{Store, Summary, Window};
use plain::Ran;

// Cycles of a piece, each of which stores once at most.
const PIECE: u64 = 256;

// What a run comes to, and the summary then.
#[derive(Clone, Copy)]
pub struct Rated {
    pub ran: Ran<Control>,
    pub summary: Summary,
}

pub fn rate_from(
    c: Control,
    registers: &mut [u32; 15],
    memory: &mut [u8],
    budget: u64,
    w: Window,
    s: Summary,
) -> Rated
    requires { (c.counts.cycles + budget ≤ most_cycles) × (c.counts.retired ≤ c.counts.cycles) × (total c.counts.sums + 36 * budget ≤ 37 * most_cycles) }
    ensures { rated (ran_to (λ d. machine registers.new d memory.new) result.ran) result.summary ≡ rate_from budget w s (machine registers.old c memory.old) }
{
    let mut at = c;
    let mut used: u64 = 0;
    let mut summary = s;
    let mut found = [Store::default(); 256];
    while used < budget {
        let piece = PIECE.min(budget - used);
        let seen = watch_from(at, registers, memory, piece, w, &mut found);
        summary = summed(summary, &found[..seen.told]);
        at = seen.ran.machine;
        used += seen.ran.used;
        if seen.ran.stop.is_some() {
            let ran = Ran {
                stop: seen.ran.stop,
                used,
                machine: at,
            };
            return Rated { ran, summary };
        }
    }
    let ran = Ran {
        stop: None,
        used,
        machine: at,
    };
    Rated { ran, summary }
}
