// The own steps of each class (paper 01, the table of "Pipeline").
ghost use Rattle.std.specs.Prelude.{◌≡◌};
ghost use Rattle.semantics.specs.Duration.{processing_steps, single_steps, block_steps, multiply_steps};

use multiply::m_of;
use processing::shifts_by_register;
use registers::register;
use transfer::named::count;
use word::{Block, Multiply, Processing, Single};

pub fn processing_steps(i: Processing) -> u32
    ensures { result ≡ processing_steps i }
{
    if shifts_by_register(i.operand) { 2 } else { 1 }
}

pub fn single_steps(i: Single) -> u32
    ensures { result ≡ single_steps i }
{
    if i.l { 3 } else { 2 }
}

pub fn block_steps(i: Block) -> u32
    ensures { result ≡ block_steps i }
{
    let n = count(i.list);
    if i.l { n + 2 } else { n + 1 }
}

pub const BRANCH_STEPS: u32 = 1;

pub fn multiply_steps(i: Multiply, registers: &[u32; 15]) -> u32
    ensures { result ≡ multiply_steps i registers.now }
{
    m_of(register(registers, i.rs, 0)) + 1
}

// Of a failed condition, whatever the class.
pub const SKIPPED_STEPS: u32 = 1;

// Of a stored counter, after the own steps.
pub const REFILLS: u32 = 2;
