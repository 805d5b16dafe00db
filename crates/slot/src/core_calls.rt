// The core's calls.
ghost use Rattle.std.specs.Prelude.{◌≡◌};
ghost use Rattle.array_calls.specs.Calls.{started, called, core_start, core_run, core_settle};

use array_calls::kept::{begin, end};
use array_calls::refusal::refusal_of;
use core_arrays::CoreArray;
use core_arrays::unpacking::unpacked;
use pipeline::Core;
use runs::left::cycles_left;

// A refused start leaves the zeroed core.
#[tactic(auto, unfolding(array_calls::specs::Calls::core_start))]
#[unsafe(no_mangle)]
pub extern "C" fn slot_core_start(
    core: &mut CoreArray,
    registers: &[u32; 15],
    flags: u32,
    entry: u32,
    memory: &[u8],
) -> u32
    ensures { started result core.new ≡ core_start registers.now flags entry memory.now }
{
    let start = Core::start(*registers, flags, entry, memory);
    begin(core, start, Core::default())
}

// A refused run writes neither the array nor the memory.
#[unsafe(no_mangle)]
pub extern "C" fn slot_core_run(
    core: &mut CoreArray,
    memory: &mut [u8],
    budget: u64,
    used: &mut u64,
) -> u32
    ensures { called result used.new core.new memory.new ≡ core_run core.old memory.old budget }
{
    if let Err(refusal) = refusal_of(core, memory.len()) {
        *used = 0;
        return refusal.into();
    }
    let run = unpacked(core).run(memory, budget);
    end(core, used, run)
}

// The run whose budget is the cycles left, so that what a call of a few cycles goes through stands in one place.
#[tactic(auto, using(crate::proofs::Settling::by_its_run))]
#[unsafe(no_mangle)]
pub extern "C" fn slot_core_settle(core: &mut CoreArray, memory: &mut [u8], used: &mut u64) -> u32
    ensures { called result used.new core.new memory.new ≡ core_settle core.old memory.old }
{
    let settling = unpacked(core);
    let left = cycles_left(settling.control, &settling.registers);
    slot_core_run(core, memory, left, used)
}
