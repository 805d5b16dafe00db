// The writer: a record as its word, fields put one behind the other from the highest to the lowest.
#![tactic(auto, unfolding(crate::specs::Writer::written))]

ghost use Rattle.std.specs.Prelude.{◌≡◌, ◌<◌, Ok, map, IsTrue};
ghost use Rattle.std.specs.List.{list_all};
ghost use Rattle.writer.specs.Fields.{allow, put, packed, field_of, is_narrow};
ghost use Rattle.writer.specs.Writer.{operand_fields, processing_class, single_class, single_has, written, no_word_for, answer_of, write_of};

use word::reader::{is_other, read};
use word::{Block, Branch, Instruction, Multiply, Operand, Processing, Single};

// A refusal: no word reads as the record.
#[derive(Clone, Copy, PartialEq, Eq, Debug)]
pub struct NoWord;

// Its number.
pub const NO_WORD_FOR: u32 = 5;

impl From<NoWord> for u32 {
    ghost from_gives = { λ e number. number ≡ no_word_for };

    fn from(_: NoWord) -> Self {
        NO_WORD_FOR
    }
}

pub fn write(i: Instruction) -> Result<u32, NoWord>
    ensures { answer_of result ≡ write_of i }
{
    match i {
        Instruction::Processing(p) => processing(p),
        Instruction::Single(s) => single(s),
        Instruction::Block(b) => block(b),
        Instruction::Branch(b) => branch(b),
        Instruction::Multiply(m) => multiply(m),
        Instruction::Other(word) => other(word),
    }
}

// A field behind what is written, where the value fits the field and the word has room.
fn put(word: u32, width: u32, value: u32) -> Result<u32, NoWord>
    requires { (0 < width) × (width < 32) }
    ensures { result ≡ put (Ok word) width value }
{
    let fits = value >> width == 0;
    let has_room = word >> (32 - width) == 0;
    if fits && has_room {
        Ok((word << width) + value)
    } else {
        Err(NoWord)
    }
}

// Fields behind what is written, each a value and its width.
fn packed(word: u32, fields: &[(u32, u32)]) -> Result<u32, NoWord>
    requires { IsTrue (list_all is_narrow fields.now) }
    ensures { result ≡ packed (Ok word) (map field_of fields.now) }
{
    fields
        .iter()
        .try_fold(word, |word, &(value, width)| put(word, width, value))
}

// Bits 11..0.
fn with_operand(word: u32, operand: Operand) -> Result<u32, NoWord>
    ensures { result ≡ packed (Ok word) (operand_fields operand) }
{
    match operand {
        Operand::Constant { rotate, value } => packed(word, &[(rotate, 4), (value, 8)]),
        Operand::ShiftByAmount { rm, shift, amount } => {
            packed(word, &[(amount, 5), (shift, 2), (0, 1), (rm, 4)])
        }
        Operand::ShiftByRegister { rm, shift, rs } => {
            packed(word, &[(rs, 4), (0, 1), (shift, 2), (1, 1), (rm, 4)])
        }
    }
}

// Bits 27..25, whose lowest is I.
fn processing_class(operand: Operand) -> u32
    ensures { result ≡ processing_class operand }
{
    match operand {
        Operand::Constant { .. } => 1,
        Operand::ShiftByAmount { .. } | Operand::ShiftByRegister { .. } => 0,
    }
}

#[tactic(auto, using(crate::proofs::Fields::refused), unfolding(crate::specs::Writer::written))]
fn processing(i: Processing) -> Result<u32, NoWord>
    ensures { result ≡ written (Instruction.Processing i) }
{
    let fields = [
        (i.condition, 4),
        (processing_class(i.operand), 3),
        (i.operation, 4),
        (u32::from(i.s), 1),
        (i.rn, 4),
        (i.rd, 4),
    ];
    let word = packed(0, &fields)?;
    with_operand(word, i.operand)
}

// The same of a single transfer, which has no offset by a register.
fn single_class(offset: Operand) -> Result<u32, NoWord>
    ensures { result ≡ allow (single_has offset) (Ok (single_class offset)) }
{
    match offset {
        Operand::Constant { .. } => Ok(2),
        Operand::ShiftByAmount { .. } => Ok(3),
        Operand::ShiftByRegister { .. } => Err(NoWord),
    }
}

#[tactic(auto, using(crate::proofs::Fields::refused), unfolding(crate::specs::Writer::written))]
fn single(i: Single) -> Result<u32, NoWord>
    ensures { result ≡ written (Instruction.Single i) }
{
    let fields = [
        (i.condition, 4),
        (single_class(i.offset)?, 3),
        (u32::from(i.p), 1),
        (u32::from(i.u), 1),
        (u32::from(i.b), 1),
        (u32::from(i.w), 1),
        (u32::from(i.l), 1),
        (i.rn, 4),
        (i.rd, 4),
    ];
    let word = packed(0, &fields)?;
    with_operand(word, i.offset)
}

fn block(i: Block) -> Result<u32, NoWord>
    ensures { result ≡ written (Instruction.Block i) }
{
    let fields = [
        (i.condition, 4),
        (4, 3),
        (u32::from(i.p), 1),
        (u32::from(i.u), 1),
        (u32::from(i.s), 1),
        (u32::from(i.w), 1),
        (u32::from(i.l), 1),
        (i.rn, 4),
        (i.list, 16),
    ];
    packed(0, &fields)
}

fn branch(i: Branch) -> Result<u32, NoWord>
    ensures { result ≡ written (Instruction.Branch i) }
{
    let fields = [
        (i.condition, 4),
        (5, 3),
        (u32::from(i.link), 1),
        (i.offset, 24),
    ];
    packed(0, &fields)
}

fn multiply(i: Multiply) -> Result<u32, NoWord>
    ensures { result ≡ written (Instruction.Multiply i) }
{
    let fields = [
        (i.condition, 4),
        (0b000000, 6),
        (u32::from(i.accumulate), 1),
        (u32::from(i.s), 1),
        (i.rd, 4),
        (i.rn, 4),
        (i.rs, 4),
        (0b1001, 4),
        (i.rm, 4),
    ];
    packed(0, &fields)
}

// An Other holds no word of another class.
fn other(word: u32) -> Result<u32, NoWord>
    ensures { result ≡ written (Instruction.Other word) }
{
    if is_other(read(word)) {
        Ok(word)
    } else {
        Err(NoWord)
    }
}
