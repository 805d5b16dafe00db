// The reader. `read` is inlined where an engine matches on it, so that no record of all classes goes through memory.
ghost use Rattle.std.specs.Prelude.{◌≡◌};
ghost use Rattle.word.specs.Reader.{constant_of, by_amount_of, by_register_of, processing_operand_of, single_offset_of, processing_of, single_of, block_of, branch_of, multiply_of, is_multiply, kind_in, read_of, is_other};

use crate::{Block, Branch, Class, Instruction, Multiply, Operand, Processing, Single};
use bits::{bit, field};

#[inline(always)]
pub fn read(word: u32) -> Instruction
    ensures { result ≡ read_of word }
{
    match kind(word) {
        Class::Processing => Instruction::Processing(processing(word, processing_operand(word))),
        Class::Single => Instruction::Single(single(word, single_offset(word))),
        Class::Block => Instruction::Block(block(word)),
        Class::Branch => Instruction::Branch(branch(word)),
        Class::Multiply => Instruction::Multiply(multiply(word)),
        Class::Other => Instruction::Other(word),
    }
}

// The class of a word by its bits 27..25.
pub fn kind(word: u32) -> Class
    ensures { result ≡ kind_in word }
{
    match (bit(word, 27), bit(word, 26), bit(word, 25)) {
        (true, true, _) => Class::Other,
        (true, false, true) => Class::Branch,
        (true, false, false) => Class::Block,
        (false, true, true) if bit(word, 4) => Class::Other,
        (false, true, _) => Class::Single,
        // The extension space: multiply and swap stand there, and this core has no swap.
        (false, false, false) if bit(word, 4) && bit(word, 7) => {
            if is_multiply(word) {
                Class::Multiply
            } else {
                Class::Other
            }
        }
        (false, false, _) => Class::Processing,
    }
}

fn is_multiply(word: u32) -> bool
    ensures { result ≡ is_multiply word }
{
    field(word, 22, 6) == 0b000000 && field(word, 4, 4) == 0b1001
}

pub fn constant(word: u32) -> Operand
    ensures { result ≡ constant_of word }
{
    Operand::Constant {
        rotate: field(word, 8, 4),
        value: field(word, 0, 8),
    }
}

pub fn by_amount(word: u32) -> Operand
    ensures { result ≡ by_amount_of word }
{
    Operand::ShiftByAmount {
        rm: field(word, 0, 4),
        shift: field(word, 5, 2),
        amount: field(word, 7, 5),
    }
}

pub fn by_register(word: u32) -> Operand
    ensures { result ≡ by_register_of word }
{
    Operand::ShiftByRegister {
        rm: field(word, 0, 4),
        shift: field(word, 5, 2),
        rs: field(word, 8, 4),
    }
}

// The operand of a processing word: bit 25 is I, and bit 4 tells the two shifts apart.
pub fn processing_operand(word: u32) -> Operand
    ensures { result ≡ processing_operand_of word }
{
    match (bit(word, 25), bit(word, 4)) {
        (true, _) => constant(word),
        (false, true) => by_register(word),
        (false, false) => by_amount(word),
    }
}

// The offset of a single transfer's word, where I means the other way.
pub fn single_offset(word: u32) -> Operand
    ensures { result ≡ single_offset_of word }
{
    if bit(word, 25) {
        by_amount(word)
    } else {
        constant(word)
    }
}

pub fn processing(word: u32, operand: Operand) -> Processing
    ensures { result ≡ processing_of word operand }
{
    Processing {
        condition: field(word, 28, 4),
        operation: field(word, 21, 4),
        s: bit(word, 20),
        rn: field(word, 16, 4),
        rd: field(word, 12, 4),
        operand,
    }
}

pub fn single(word: u32, offset: Operand) -> Single
    ensures { result ≡ single_of word offset }
{
    Single {
        condition: field(word, 28, 4),
        p: bit(word, 24),
        u: bit(word, 23),
        b: bit(word, 22),
        w: bit(word, 21),
        l: bit(word, 20),
        rn: field(word, 16, 4),
        rd: field(word, 12, 4),
        offset,
    }
}

pub fn block(word: u32) -> Block
    ensures { result ≡ block_of word }
{
    Block {
        condition: field(word, 28, 4),
        p: bit(word, 24),
        u: bit(word, 23),
        s: bit(word, 22),
        w: bit(word, 21),
        l: bit(word, 20),
        rn: field(word, 16, 4),
        list: field(word, 0, 16),
    }
}

pub fn branch(word: u32) -> Branch
    ensures { result ≡ branch_of word }
{
    Branch {
        condition: field(word, 28, 4),
        link: bit(word, 24),
        offset: field(word, 0, 24),
    }
}

pub fn multiply(word: u32) -> Multiply
    ensures { result ≡ multiply_of word }
{
    Multiply {
        condition: field(word, 28, 4),
        accumulate: bit(word, 21),
        s: bit(word, 20),
        rd: field(word, 16, 4),
        rn: field(word, 12, 4),
        rs: field(word, 8, 4),
        rm: field(word, 0, 4),
    }
}

pub fn is_other(i: Instruction) -> bool
    ensures { result ≡ is_other i }
{
    matches!(i, Instruction::Other(_))
}
