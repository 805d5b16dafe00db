// The watched run for C, an object of its own: with a second caller in one object what a run goes through is no longer inlined.
#![tactic(auto)]

ghost use Rattle.std.specs.Prelude.{◌≡◌, List, ℕ};
ghost use Rattle.link.specs.Window.{window};
ghost use Rattle.watch.specs.Refused.{refused_number};
ghost use Rattle.array_calls.specs.Calls.{called};
ghost use Rattle.slot_rated.specs.Rate.{rate_called, rate_run};
ghost use Rattle.slot_rated.specs.RateKept.{rate_ended_in};

use array_calls::kept::Kept;
use array_calls::refusal::refusal_of;
use core_arrays::CoreArray;
use core_arrays::unpacking::unpacked;
use link::Window;
use stops::reason::number;
use summary_arrays::SummaryArray;
use summary_arrays::packing::pack;
use summary_arrays::unpacking::unpacked as summary_of;
use watch::calls::{RatedCore, Refused, rate_run};

const BAD_WINDOW: u32 = 58;

fn refused_number(refused: Refused) -> u32
    ensures { result ≡ refused_number refused }
{
    match refused {
        Refused::Run(refusal) => refusal.into(),
        Refused::Window => BAD_WINDOW,
    }
}

// What a watched run answers, counts and leaves; where it is refused, the arrays are as they were.
fn rate_end(
    core: &mut CoreArray,
    used: &mut u64,
    summary: &mut SummaryArray,
    run: Result<RatedCore, Refused>,
) -> u32
    ensures { (mem : List ℕ) → rate_called (called result used.new core.new mem) summary.new ≡ rate_ended_in core.old summary.old mem run }
{
    match run {
        Ok(rated) => {
            rated.ran.machine.pack(core);
            *used = rated.ran.used;
            pack(summary, rated.summary);
            number(rated.ran.stop)
        }
        Err(refused) => {
            *used = 0;
            refused_number(refused)
        }
    }
}

// As slot_core_run; a refused one does not write the summary either.
#[unsafe(no_mangle)]
pub extern "C" fn slot_rate_run(
    core: &mut CoreArray,
    memory: &mut [u8],
    budget: u64,
    used: &mut u64,
    from: u32,
    to: u32,
    summary: &mut SummaryArray,
) -> u32
    ensures { rate_called (called result used.new core.new memory.new) summary.new ≡ rate_run core.old memory.old budget (window from to) summary.old }
{
    if let Err(refusal) = refusal_of(core, memory.len()) {
        *used = 0;
        return refusal.into();
    }
    let w = Window { from, to };
    let run = rate_run(unpacked(core), memory, budget, w, summary_of(summary));
    rate_end(core, used, summary, run)
}
