// Whether a record may be in a step from 2 on: step k + 2 of a word that meets 22 or 23, lacks that step, or has a word still to be moved outside memory is bad.
// From the word, as an engine goes: a record that a caller lends would go through memory.
ghost use Rattle.std.specs.Prelude.{◌≡◌, List, ℕ, suc, ◌-◌, ltb};
ghost use Rattle.word.specs.declared.Instruction.{Instruction};
ghost use Rattle.word.specs.Reader.{read_of};
ghost use Rattle.cycle.specs.Machine.{Machine, machine};
ghost use Rattle.refusals.specs.Numbers.{bad_within};

use cycle::Control;
use semantics::own_steps::{block_steps, multiply_steps, processing_steps, single_steps};
use stops::rules::{block_rule, multiply_rule, processing_rule, single_rule};
use stops::span::outside;
use transfer::named::count;
use word::{Block, Instruction, Multiply, Processing, Single, reader};

// Of so many own steps, step k + 2 is one.
fn has_step(steps: u32, k: u32) -> bool
    ensures { result ≡ ltb (suc k) steps }
{
    u64::from(k) + 1 < u64::from(steps)
}

// How many of n are left after k.
fn left(n: u32, k: u32) -> u32
    ensures { result ≡ n - k }
{
    n.saturating_sub(k)
}

fn bad_processing(i: Processing, k: u32) -> bool
    ensures { (m : Machine) → result ≡ bad_within (Instruction.Processing i) k m }
{
    let steps = processing_steps(i);
    processing_rule(i).is_err() | !has_step(steps, k)
}

fn bad_single(i: Single, k: u32, c: Control) -> bool
    ensures { (g mem : List ℕ) → result ≡ bad_within (Instruction.Single i) k (machine g c mem) }
{
    let steps = single_steps(i);
    single_rule(i).is_err()
        | (!has_step(steps, k) | outside(c.latches.address, left(1, k), c.board))
}

fn bad_block(i: Block, k: u32, c: Control) -> bool
    ensures { (g mem : List ℕ) → result ≡ bad_within (Instruction.Block i) k (machine g c mem) }
{
    let steps = block_steps(i);
    let n = count(i.list);
    block_rule(i).is_err() | (!has_step(steps, k) | outside(c.latches.address, left(n, k), c.board))
}

// The steps go by the value that Rs holds.
fn bad_multiply(i: Multiply, k: u32, c: Control, registers: &[u32; 15]) -> bool
    ensures { (mem : List ℕ) → result ≡ bad_within (Instruction.Multiply i) k (machine registers.now c mem) }
{
    let steps = multiply_steps(i, registers);
    multiply_rule(i).is_err() | !has_step(steps, k)
}

// A branch has no step 2, and an Other meets 22.
pub fn bad_word(word: u32, k: u32, c: Control, registers: &[u32; 15]) -> bool
    ensures { (mem : List ℕ) → result ≡ bad_within (read_of word) k (machine registers.now c mem) }
{
    match reader::read(word) {
        Instruction::Processing(i) => bad_processing(i, k),
        Instruction::Single(i) => bad_single(i, k, c),
        Instruction::Block(i) => bad_block(i, k, c),
        Instruction::Multiply(i) => bad_multiply(i, k, c, registers),
        Instruction::Branch(_) | Instruction::Other(_) => true,
    }
}
