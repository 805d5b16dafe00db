// From an array to its record.
ghost use Rattle.std.specs.Prelude.{◌≡◌};
ghost use Rattle.record_arrays.specs.RecordArray.{processing_of, single_of, block_of, branch_of, multiply_of, record_of};

use crate::RecordArray;
use crate::operand::operand_at;
use word::{Block, Branch, Instruction, Multiply, Processing, Single};

fn processing_of(words: &RecordArray) -> Processing
    ensures { result ≡ processing_of words.now }
{
    Processing {
        condition: words[1],
        operation: words[2],
        s: words[5] == 1,
        rn: words[8],
        rd: words[9],
        operand: operand_at(words),
    }
}

fn single_of(words: &RecordArray) -> Single
    ensures { result ≡ single_of words.now }
{
    Single {
        condition: words[1],
        p: words[3] == 1,
        u: words[4] == 1,
        b: words[5] == 1,
        w: words[6] == 1,
        l: words[7] == 1,
        rn: words[8],
        rd: words[9],
        offset: operand_at(words),
    }
}

fn block_of(words: &RecordArray) -> Block
    ensures { result ≡ block_of words.now }
{
    Block {
        condition: words[1],
        p: words[3] == 1,
        u: words[4] == 1,
        s: words[5] == 1,
        w: words[6] == 1,
        l: words[7] == 1,
        rn: words[8],
        list: words[14],
    }
}

fn branch_of(words: &RecordArray) -> Branch
    ensures { result ≡ branch_of words.now }
{
    Branch {
        condition: words[1],
        link: words[7] == 1,
        offset: words[14],
    }
}

fn multiply_of(words: &RecordArray) -> Multiply
    ensures { result ≡ multiply_of words.now }
{
    Multiply {
        condition: words[1],
        accumulate: words[6] == 1,
        s: words[5] == 1,
        rd: words[9],
        rn: words[8],
        rs: words[13],
        rm: words[11],
    }
}

// It stands inlined in its one caller, so that the record dissolves where it is written.
#[inline(always)]
#[tactic(auto, unfolding(crate::specs::RecordArray::record_of))]
pub fn record_of(words: &RecordArray) -> Instruction
    ensures { result ≡ record_of words.now }
{
    match words[0] {
        0 => Instruction::Processing(processing_of(words)),
        1 => Instruction::Single(single_of(words)),
        2 => Instruction::Block(block_of(words)),
        3 => Instruction::Branch(branch_of(words)),
        5 => Instruction::Multiply(multiply_of(words)),
        _ => Instruction::Other(words[14]),
    }
}
