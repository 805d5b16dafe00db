// The duration of a word's instruction, where it is executed: its own steps, and the two refills where it stores the counter.
// From the word, as an engine goes: a record that a caller lends would go through memory.
ghost use Rattle.std.specs.Prelude.{◌≡◌, ℕ, ◌≤◌, List};
ghost use Rattle.word.specs.declared.Instruction.{Instruction};
ghost use Rattle.word.specs.Reader.{read_of};
ghost use Rattle.semantics.specs.Duration.{with_refills, duration_of};

use crate::own_steps::{
    BRANCH_STEPS, REFILLS, block_steps, multiply_steps, processing_steps, single_steps,
};
use crate::stores::{block_stores, processing_stores, single_stores};
use word::{Block, Instruction, Processing, Single, reader};

fn with_refills(steps: u32, stores: bool) -> u32
    requires { steps ≤ 18 }
    ensures { result ≡ with_refills steps stores }
{
    if stores { steps + REFILLS } else { steps }
}

fn processing_duration(i: Processing) -> u32
    ensures { (g : List ℕ) → result ≡ duration_of (Instruction.Processing i) g }
{
    with_refills(processing_steps(i), processing_stores(i))
}

fn single_duration(i: Single) -> u32
    ensures { (g : List ℕ) → result ≡ duration_of (Instruction.Single i) g }
{
    with_refills(single_steps(i), single_stores(i))
}

fn block_duration(i: Block) -> u32
    ensures { (g : List ℕ) → result ≡ duration_of (Instruction.Block i) g }
{
    with_refills(block_steps(i), block_stores(i))
}

pub fn duration_of(word: u32, registers: &[u32; 15]) -> u32
    ensures { result ≡ duration_of (read_of word) registers.now }
{
    match reader::read(word) {
        Instruction::Processing(i) => processing_duration(i),
        Instruction::Single(i) => single_duration(i),
        Instruction::Block(i) => block_duration(i),
        Instruction::Branch(_) => with_refills(BRANCH_STEPS, true),
        Instruction::Multiply(i) => multiply_steps(i, registers),
        Instruction::Other(_) => 1,
    }
}
