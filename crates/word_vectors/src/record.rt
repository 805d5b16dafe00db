// A word's record, field by field.
use tokens::{print, token};
use word::{Instruction, Operand, reader};
use writer::NoWord;

// Answers whether there was a word.
pub fn report() -> bool {
    let Some(word) = token::next() else {
        return false;
    };
    let record = reader::read(word);
    print_record(record);
    print_answer(writer::write(record));
    true
}

fn print_record(record: Instruction) {
    match record {
        Instruction::Processing(i) => {
            print_fields(&[
                (b"processing condition=", i.condition),
                (b" operation=", i.operation),
                (b" s=", u32::from(i.s)),
                (b" rn=", i.rn),
                (b" rd=", i.rd),
            ]);
            print_operand(i.operand);
        }
        Instruction::Single(i) => {
            print_fields(&[
                (b"single condition=", i.condition),
                (b" p=", u32::from(i.p)),
                (b" u=", u32::from(i.u)),
                (b" b=", u32::from(i.b)),
                (b" w=", u32::from(i.w)),
                (b" l=", u32::from(i.l)),
                (b" rn=", i.rn),
                (b" rd=", i.rd),
            ]);
            print_operand(i.offset);
        }
        Instruction::Block(i) => print_fields(&[
            (b"block condition=", i.condition),
            (b" p=", u32::from(i.p)),
            (b" u=", u32::from(i.u)),
            (b" s=", u32::from(i.s)),
            (b" w=", u32::from(i.w)),
            (b" l=", u32::from(i.l)),
            (b" rn=", i.rn),
            (b" list=", i.list),
        ]),
        Instruction::Branch(i) => print_fields(&[
            (b"branch condition=", i.condition),
            (b" link=", u32::from(i.link)),
            (b" offset=", i.offset),
        ]),
        Instruction::Multiply(i) => print_fields(&[
            (b"multiply condition=", i.condition),
            (b" s=", u32::from(i.s)),
            (b" accumulate=", u32::from(i.accumulate)),
            (b" rn=", i.rn),
            (b" rd=", i.rd),
            (b" rm=", i.rm),
            (b" rs=", i.rs),
        ]),
        Instruction::Other(word) => print::field(b"other holds=", word, 8),
    }
}

fn print_operand(operand: Operand) {
    match operand {
        Operand::Constant { rotate, value } => {
            print_fields(&[(b" constant rotate=", rotate), (b" value=", value)])
        }
        Operand::ShiftByAmount { rm, shift, amount } => print_fields(&[
            (b" amount rm=", rm),
            (b" shift=", shift),
            (b" amount=", amount),
        ]),
        Operand::ShiftByRegister { rm, shift, rs } => print_fields(&[
            (b" register rm=", rm),
            (b" shift=", shift),
            (b" rs=", rs),
        ]),
    }
}

// A word has the number 0, and a refusal the word 0.
fn print_answer(written: Result<u32, NoWord>) {
    let (number, word) = match written {
        Ok(word) => (0, word),
        Err(refusal) => (refusal.into(), 0),
    };
    print_fields(&[(b" number=", number)]);
    print::field(b" word=", word, 8);
    print::bytes(b"\n");
}

// Each a name and a number.
fn print_fields(fields: &[(&[u8], u32)]) {
    for (name, value) in fields {
        print::field(name, *value, digits(*value));
    }
}

// How many digits a number has without leading zeros: one for each four bits begun, and one for 0.
fn digits(value: u32) -> usize {
    let bits = 32 - (value | 1).leading_zeros() % 32;
    bits.div_ceil(4) as usize
}
