// From a record to its array.
ghost use Rattle.std.specs.Prelude.{◌≡◌};
ghost use Rattle.record_arrays.specs.RecordArray.{quad_of, processing_words, single_words, block_words, branch_words, multiply_words, record_words};

use crate::{Quad, RecordArray};
use word::{Block, Branch, Instruction, Multiply, Processing, Single};

fn processing_words(i: Processing) -> RecordArray
    ensures { result ≡ processing_words i (quad_of i.operand) }
{
    let q = Quad::from(i.operand);
    [
        0,
        i.condition,
        i.operation,
        0,
        0,
        u32::from(i.s),
        0,
        0,
        i.rn,
        i.rd,
        q.kind,
        q.first,
        q.second,
        q.third,
        0,
        0,
    ]
}

fn single_words(i: Single) -> RecordArray
    ensures { result ≡ single_words i (quad_of i.offset) }
{
    let q = Quad::from(i.offset);
    [
        1,
        i.condition,
        0,
        u32::from(i.p),
        u32::from(i.u),
        u32::from(i.b),
        u32::from(i.w),
        u32::from(i.l),
        i.rn,
        i.rd,
        q.kind,
        q.first,
        q.second,
        q.third,
        0,
        0,
    ]
}

fn block_words(i: Block) -> RecordArray
    ensures { result ≡ block_words i }
{
    [
        2,
        i.condition,
        0,
        u32::from(i.p),
        u32::from(i.u),
        u32::from(i.s),
        u32::from(i.w),
        u32::from(i.l),
        i.rn,
        0,
        0,
        0,
        0,
        0,
        i.list,
        0,
    ]
}

fn branch_words(i: Branch) -> RecordArray
    ensures { result ≡ branch_words i }
{
    [
        3,
        i.condition,
        0,
        0,
        0,
        0,
        0,
        u32::from(i.link),
        0,
        0,
        0,
        0,
        0,
        0,
        i.offset,
        0,
    ]
}

fn multiply_words(i: Multiply) -> RecordArray
    ensures { result ≡ multiply_words i }
{
    [
        5,
        i.condition,
        0,
        0,
        0,
        u32::from(i.s),
        u32::from(i.accumulate),
        0,
        i.rn,
        i.rd,
        0,
        i.rm,
        0,
        i.rs,
        0,
        0,
    ]
}

#[tactic(auto, unfolding(crate::specs::RecordArray::record_words))]
pub fn record_words(i: Instruction) -> RecordArray
    ensures { result ≡ record_words i }
{
    match i {
        Instruction::Processing(p) => processing_words(p),
        Instruction::Single(s) => single_words(s),
        Instruction::Block(b) => block_words(b),
        Instruction::Branch(b) => branch_words(b),
        Instruction::Multiply(m) => multiply_words(m),
        Instruction::Other(word) => [4, 0, 0, 0, 0, 0, 0, 0, 0, 0, 0, 0, 0, 0, word, 0],
    }
}
