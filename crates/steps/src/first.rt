// Step 1 of each class; R15 is read at A+8.
#![tactic(auto, unfolding(crate::specs::Steps::first_step))]

ghost use Rattle.std.specs.Prelude.{◌≡◌};
ghost use Rattle.memory.specs.Memory.{Memory};
ghost use Rattle.bits.specs.Choice.{pick};
ghost use Rattle.word.specs.declared.Instruction.{Instruction};
ghost use Rattle.word.specs.Reader.{read_of};
ghost use Rattle.datapath.specs.Counter.{ahead};
ghost use Rattle.transfer.specs.Single as single;
ghost use Rattle.transfer.specs.Block as block;
ghost use Rattle.steps.specs.Steps.{own, first_step};

use crate::ending::{last, on, still};
use crate::{After, Ended, Latches, Phase, Step};
use datapath::counter::{R15, ahead, behind};
use processing::{process, shifts_by_register};
use semantics::branch::branch;
use transfer::named::lowest;
use transfer::{block, single};
use word::{Block, Branch, Instruction, Processing, Single, reader};

// With shift by register all is done in the second step.
fn first_processing(i: Processing, registers: &mut [u32; 15], r15: R15) -> Step
    ensures { (mem : Memory) → own registers.new result mem ≡ first_step (Instruction.Processing i) registers.old r15.flags r15.pc mem }
{
    if shifts_by_register(i.operand) {
        still(r15.flags, After::More(Phase::Later(0)))
    } else {
        last(process(i, registers, r15))
    }
}

// What a store sends, read in step 1: R15 as A+12.
fn first_datum(load: bool, registers: &[u32; 15], n: u32, r15: R15) -> u32
    ensures { result ≡ pick load 0 (single.stored_value registers.now n r15.flags (ahead r15.pc 4)) }
{
    if load {
        0
    } else {
        let a12 = ahead(r15.pc, 4);
        single::stored_value(registers, n, R15 { pc: a12, ..r15 })
    }
}

fn single_base(i: Single, registers: &[u32; 15], r15: R15) -> u32
    ensures { result ≡ pick (single.writes_base i) (single.changed_base i registers.now r15.flags r15.pc) 0 }
{
    if single::writes_base(i) {
        single::changed_base(i, registers, r15)
    } else {
        0
    }
}

fn first_single(i: Single, registers: &[u32; 15], r15: R15) -> Step
    ensures { (mem : Memory) → own registers.now result mem ≡ first_step (Instruction.Single i) registers.now r15.flags r15.pc mem }
{
    let address = single::address(i, registers, r15);
    let datum = first_datum(i.l, registers, i.rd, r15);
    let latches = Latches {
        address,
        datum,
        base: single_base(i, registers, r15),
    };
    on(r15.flags, latches, 0)
}

fn block_base(i: Block, registers: &[u32; 15]) -> u32
    ensures { result ≡ pick i.w (block.changed_base i registers.now) 0 }
{
    if i.w {
        block::changed_base(i, registers)
    } else {
        0
    }
}

fn first_block(i: Block, registers: &[u32; 15], r15: R15) -> Step
    ensures { (mem : Memory) → own registers.now result mem ≡ first_step (Instruction.Block i) registers.now r15.flags r15.pc mem }
{
    let address = block::lowest_address(i, registers);
    let datum = first_datum(i.l, registers, lowest(i.list).unwrap_or(16), r15);
    let latches = Latches {
        address,
        datum,
        base: block_base(i, registers),
    };
    on(r15.flags, latches, 0)
}

fn first_branch(i: Branch, registers: &mut [u32; 15], r15: R15) -> Step
    ensures { (mem : Memory) → own registers.new result mem ≡ first_step (Instruction.Branch i) registers.old r15.flags r15.pc mem }
{
    last(branch(i, registers, r15.flags, behind(r15.pc, 8)))
}

// Step 1 of a word whose condition passes.
pub fn first_step(word: u32, registers: &mut [u32; 15], r15: R15) -> Step
    ensures { (mem : Memory) → own registers.new result mem ≡ first_step (read_of word) registers.old r15.flags r15.pc mem }
{
    match reader::read(word) {
        Instruction::Processing(i) => first_processing(i, registers, r15),
        Instruction::Single(i) => first_single(i, registers, r15),
        Instruction::Block(i) => first_block(i, registers, r15),
        Instruction::Branch(i) => first_branch(i, registers, r15),
        // A multiply writes in its last step, which is never this one.
        Instruction::Multiply(_) => still(r15.flags, After::More(Phase::Later(0))),
        Instruction::Other(_) => still(r15.flags, After::Done(Ended::Executed(0))),
    }
}
