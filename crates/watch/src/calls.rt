// The call: a run of a core that folds its stores into a summary.
ghost use Rattle.std.specs.Prelude.{◌≡◌, length};
ghost use Rattle.pipeline.specs.Calls.{seen};
ghost use Rattle.watch.specs.Rated.{rate_run};
ghost use Rattle.watch.specs.Refused.{rated_as};

use crate::rated::rate_from;
use link::windows::bad_window;
use link::{Summary, Window};
use pipeline::Core;
use plain::Ran;
use plain::refused::Refusal;
use refusals::numbers::at_once;

// Why it is refused: as a run is, or for its window.
#[derive(Clone, Copy)]
pub enum Refused {
    Run(Refusal),
    Window,
}

// What an accepted one hands back.
#[derive(Clone, Copy)]
pub struct RatedCore {
    pub ran: Ran<Core>,
    pub summary: Summary,
}

// A refused call changes nothing. The window is tested last, but for a stop held.
pub fn rate_run(
    core: Core,
    memory: &mut [u8],
    budget: u64,
    w: Window,
    s: Summary,
) -> Result<RatedCore, Refused>
    ensures { rated_as (seen memory.new) core s result ≡ rate_run (length memory.old) budget w s (seen memory.old core) }
{
    let mut registers = core.registers;
    let held = match at_once(memory.len(), budget, core.control, &registers) {
        Ok(held) => held,
        Err(refusal) => return Err(Refused::Run(refusal)),
    };
    if bad_window(w, memory.len()) {
        return Err(Refused::Window);
    }
    if held.is_some() {
        let ran = Ran {
            stop: held,
            used: 0,
            machine: core,
        };
        return Ok(RatedCore { ran, summary: s });
    }
    let rated = rate_from(core.control, &mut registers, memory, budget, w, s);
    let ran = Ran {
        stop: rated.ran.stop,
        used: rated.ran.used,
        machine: Core {
            registers,
            control: rated.ran.machine,
        },
    };
    Ok(RatedCore {
        ran,
        summary: rated.summary,
    })
}
