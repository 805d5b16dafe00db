// The plain machine's calls.
ghost use Rattle.std.specs.Prelude.{◌≡◌};
ghost use Rattle.array_calls.specs.Calls.{started, called, plain_start, plain_run};

use array_calls::kept::{begin, end};
use plain::Plain;
use plain_arrays::{PlainArray, unpacked};

#[tactic(auto, unfolding(array_calls::specs::Calls::plain_start))]
#[unsafe(no_mangle)]
pub extern "C" fn slot_plain_start(
    plain: &mut PlainArray,
    registers: &[u32; 15],
    flags: u32,
    entry: u32,
    memory: &[u8],
) -> u32
    ensures { started result plain.new ≡ plain_start registers.now flags entry memory.now }
{
    let start = Plain::start(*registers, flags, entry, memory);
    begin(plain, start, Plain::default())
}

#[unsafe(no_mangle)]
pub extern "C" fn slot_plain_run(
    plain: &mut PlainArray,
    memory: &mut [u8],
    count: u64,
    used: &mut u64,
) -> u32
    ensures { called result used.new plain.new memory.new ≡ plain_run plain.old memory.old count }
{
    let run = unpacked(plain).run(memory, count);
    end(plain, used, run)
}
