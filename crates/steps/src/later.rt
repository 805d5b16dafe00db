// Step k + 2 of each class; pc is A+12.
#![tactic(auto, unfolding(crate::specs::Steps::load_later, crate::specs::Steps::store_later, crate::specs::Steps::multiply_later, crate::specs::Steps::later_step))]

ghost use Rattle.std.specs.Prelude.{◌≡◌};
ghost use Rattle.memory.specs.Memory.{Memory, memory_of};
ghost use Rattle.word.specs.declared.Instruction.{Instruction};
ghost use Rattle.word.specs.Reader.{read_of};
ghost use Rattle.processing.specs.Processing.{processed};
ghost use Rattle.steps.specs.Steps.{own, last, load_later, store_later, multiply_later, later_step};

use crate::blocks::later_block;
use crate::ending::{last, on, still};
use crate::{After, Ended, Found, Latches, Phase, Step};
use datapath::counter::R15;
use multiply::{m_of, multiply};
use processing::process;
use registers::{arrive, register};
use transfer::single;
use word::{Instruction, Multiply, Processing, Single, reader};

fn later_processing(i: Processing, registers: &mut [u32; 15], r15: R15) -> Step
    ensures { (mem : Memory) → own registers.new result mem ≡ last (processed i registers.old r15.flags r15.pc) mem }
{
    last(process(i, registers, r15))
}

// A load: read and base; register.
fn load_later(i: Single, k: u32, registers: &mut [u32; 15], memory: &[u8], found: Found) -> Step
    ensures { own registers.new result (memory_of found.board memory.now) ≡ load_later i k registers.old found.flags found.latches (memory_of found.board memory.now) }
{
    if k == 0 {
        single::write_base(i, registers, found.latches.base);
        let latches = Latches {
            datum: single::loaded_value(i, memory, found.board, found.latches.address),
            ..Latches::default()
        };
        on(found.flags, latches, 1)
    } else {
        last(arrive(registers, found.flags, i.rd, found.latches.datum))
    }
}

// A store: write and base.
fn store_later(i: Single, registers: &mut [u32; 15], memory: &mut [u8], found: Found) -> Step
    ensures { own registers.new result (memory_of found.board memory.new) ≡ store_later i registers.old found.flags found.latches (memory_of found.board memory.old) }
{
    single::write_base(i, registers, found.latches.base);
    single::store(
        i,
        memory,
        found.board,
        found.latches.address,
        found.latches.datum,
    );
    still(found.flags, After::Done(Ended::Executed(0)))
}

fn later_single(
    i: Single,
    k: u32,
    registers: &mut [u32; 15],
    memory: &mut [u8],
    found: Found,
) -> Step
    ensures { own registers.new result (memory_of found.board memory.new) ≡ later_step (Instruction.Single i) k registers.old found.flags found.pc found.latches (memory_of found.board memory.old) }
{
    if i.l {
        load_later(i, k, registers, memory, found)
    } else {
        store_later(i, registers, memory, found)
    }
}

// Steps 2 to m do nothing; Rd and the flags are written in the last, which tells m: Rd may be Rs.
fn later_multiply(i: Multiply, k: u32, registers: &mut [u32; 15], flags: u32) -> Step
    ensures { (mem : Memory) → own registers.new result mem ≡ multiply_later i k registers.old flags mem }
{
    let m = m_of(register(registers, i.rs, 0));
    if u64::from(k) + 1 < u64::from(m) {
        still(flags, After::More(Phase::Later(k + 1)))
    } else {
        let done = multiply(i, registers, flags);
        still(done, After::Done(Ended::Executed(m)))
    }
}

// Step k + 2 of a word.
pub fn later_step(
    word: u32,
    k: u32,
    registers: &mut [u32; 15],
    memory: &mut [u8],
    found: Found,
) -> Step
    ensures { own registers.new result (memory_of found.board memory.new) ≡ later_step (read_of word) k registers.old found.flags found.pc found.latches (memory_of found.board memory.old) }
{
    match reader::read(word) {
        Instruction::Processing(i) => later_processing(i, registers, found.r15()),
        Instruction::Single(i) => later_single(i, k, registers, memory, found),
        Instruction::Block(i) => later_block(i, k, registers, memory, found),
        Instruction::Branch(_) => still(found.flags, After::Done(Ended::Executed(0))),
        Instruction::Multiply(i) => later_multiply(i, k, registers, found.flags),
        Instruction::Other(_) => still(found.flags, After::Done(Ended::Executed(0))),
    }
}
