// The stores of the instruction at hand, told before it is done.
ghost use Rattle.std.specs.Prelude.{◌≡◌, ◌+◌, ◌≤◌, ◌<◌, ◌^◌, length};
ghost use Rattle.bits.specs.Choice.{pick};
ghost use Rattle.memory.specs.Memory.{Memory, memory_of, word_at};
ghost use Rattle.word.specs.declared.Instruction.{Instruction};
ghost use Rattle.word.specs.Reader.{read_of};
ghost use Rattle.registers.specs.State.{state, state_in};
ghost use Rattle.stops.specs.Stops.{due};
ghost use Rattle.link.specs.Window.{handed};
ghost use Rattle.stores.specs.Writes.{burst, writes};
ghost use Rattle.stores.specs.Planned.{writes_due};
ghost use Rattle.watch.specs.Told.{Tells};

use crate::tell::tell_burst;
use bits::field;
use condition::passes;
use link::{Store, Window};
use memory::fetch;
use registers::Context;
use transfer::named::count;
use transfer::{block, single};
use word::{Block, Instruction, Single, reader};

// So many stores, and the first of them.
#[derive(Clone, Copy)]
struct Burst {
    n: u32,
    first: Store,
}

fn from_second(n: u32, bytes: u32, address: u32, cycles: u64, ticks: u64) -> Burst
    requires { (cycles + 32 < 2 ^ 64) × (ticks + 32 < 2 ^ 64) }
    ensures value { burst result.n result.first.bytes result.first.address result.first.cycle result.first.tick ≡ burst n bytes address (cycles + 2) (ticks + 4) }
    ensures number { result.n ≡ n }
    ensures cycle { result.first.cycle ≡ cycles + 2 }
    ensures tick { result.first.tick ≡ ticks + 4 }
{
    let first = Store {
        cycle: cycles + 2,
        tick: ticks + 4,
        address,
        bytes,
    };
    Burst { n, first }
}

fn width(byte: bool) -> u32
    ensures { result ≡ pick byte 1 4 }
{
    if byte { 1 } else { 4 }
}

fn single_burst(i: Single, registers: &[u32; 15], c: Context, cycles: u64, ticks: u64) -> Burst
    requires { (cycles + 32 < 2 ^ 64) × (ticks + 32 < 2 ^ 64) }
    ensures value { (mem : Memory) → burst result.n result.first.bytes result.first.address result.first.cycle result.first.tick ≡ writes (Instruction.Single i) (state registers.now c.flags c.a mem) cycles ticks }
    ensures number { result.n ≤ 16 }
    ensures cycle { result.first.cycle ≡ cycles + 2 }
    ensures tick { result.first.tick ≡ ticks + 4 }
{
    if i.l {
        return from_second(0, 4, 0, cycles, ticks);
    }
    let address = single::address(i, registers, c.r15(8));
    from_second(1, width(i.b), address, cycles, ticks)
}

fn block_burst(i: Block, registers: &[u32; 15], c: Context, cycles: u64, ticks: u64) -> Burst
    requires { (cycles + 32 < 2 ^ 64) × (ticks + 32 < 2 ^ 64) }
    ensures value { (mem : Memory) → burst result.n result.first.bytes result.first.address result.first.cycle result.first.tick ≡ writes (Instruction.Block i) (state registers.now c.flags c.a mem) cycles ticks }
    ensures number { result.n ≤ 16 }
    ensures cycle { result.first.cycle ≡ cycles + 2 }
    ensures tick { result.first.tick ≡ ticks + 4 }
{
    if i.l {
        return from_second(0, 4, 0, cycles, ticks);
    }
    from_second(
        count(i.list),
        4,
        block::lowest_address(i, registers),
        cycles,
        ticks,
    )
}

fn word_burst(word: u32, registers: &[u32; 15], c: Context, cycles: u64, ticks: u64) -> Burst
    requires { (cycles + 32 < 2 ^ 64) × (ticks + 32 < 2 ^ 64) }
    ensures value { (mem : Memory) → burst result.n result.first.bytes result.first.address result.first.cycle result.first.tick ≡ writes (read_of word) (state registers.now c.flags c.a mem) cycles ticks }
    ensures number { result.n ≤ 16 }
    ensures cycle { result.first.cycle ≡ cycles + 2 }
    ensures tick { result.first.tick ≡ ticks + 4 }
{
    match reader::read(word) {
        Instruction::Single(i) => single_burst(i, registers, c, cycles, ticks),
        Instruction::Block(i) => block_burst(i, registers, c, cycles, ticks),
        Instruction::Processing(_) => from_second(0, 4, 0, cycles, ticks),
        Instruction::Branch(_) => from_second(0, 4, 0, cycles, ticks),
        Instruction::Multiply(_) => from_second(0, 4, 0, cycles, ticks),
        Instruction::Other(_) => from_second(0, 4, 0, cycles, ticks),
    }
}

// What its step 2 and those after it store, where it is the next instruction, after so many cycles and ticks, and meets no stop.
pub fn tell_due(
    memory: &[u8],
    registers: &[u32; 15],
    c: Context,
    found: &mut [Store],
    told: usize,
    w: Window,
    cycles: u64,
    ticks: u64,
) -> usize
    requires { (told + 16 ≤ length found.old) × (cycles + 32 < 2 ^ 64) × (ticks + 32 < 2 ^ 64) }
    ensures tells { Tells told found.old result found.new (handed w (writes_due (due (word_at (memory_of c.board memory.now) c.a) c.flags) (state_in c registers.now memory.now) cycles ticks)) }
    ensures upper_bound { result ≤ told + 16 }
    ensures lower_bound { told ≤ result }
{
    let Some(word) = fetch(memory, c.board, c.a) else {
        return told;
    };
    if !passes(field(word, 28, 4), c.flags) {
        return told;
    }
    let b = word_burst(word, registers, c, cycles, ticks);
    tell_burst(found, told, w, b.n, b.first)
}
