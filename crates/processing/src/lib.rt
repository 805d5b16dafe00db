// Data processing: the operand, and what an instruction leaves in the registers, the flags and the counter. No carry is worked out that no flag takes.
#![tactic(auto)]

ghost use Rattle.std.specs.Prelude.{◌≡◌, Bool, ℕ};
ghost use Rattle.datapath.specs.Alu.{operate};
ghost use Rattle.registers.specs.Registers.{out};
ghost use Rattle.processing.specs.Processing.{operand_of, computed_by, flags_after, result_stored, processed, reads_at, by_register?};

use bits::field;
use datapath::Shifted;
use datapath::alu::{carry_of, made_flags, makes_carry, result, stores_result};
use datapath::counter::R15;
use datapath::shifter::{by_amount, by_register, constant};
use registers::{Context, Outcome, arrive, register};
use word::{Operand, Processing};

// An operand's value, and what R15 was read from beside it.
#[derive(Clone, Copy)]
pub struct Taken {
    pub value: u32,
    pub r15: R15,
}

// The operand and the shifter's carry.
#[tactic(auto, unfolding(crate::specs::Processing::operand_of))]
#[inline(always)]
fn operand(o: Operand, registers: &[u32; 15], r15: R15) -> Shifted
    ensures { result ≡ operand_of o registers.now r15.flags r15.pc }
{
    let carry = carry_of(r15.flags);
    let word = r15.word();
    match o {
        Operand::Constant { rotate, value } => constant(rotate, value, carry),
        Operand::ShiftByAmount { rm, shift, amount } => {
            by_amount(shift, register(registers, rm, word), amount, carry)
        }
        Operand::ShiftByRegister { rm, shift, rs } => {
            let v = register(registers, rm, word);
            by_register(shift, v, register(registers, rs, word), carry)
        }
    }
}

pub fn shifts_by_register(o: Operand) -> bool
    ensures { result ≡ by_register? o }
{
    matches!(o, Operand::ShiftByRegister { .. })
}

#[inline(always)]
fn take(o: Operand, registers: &[u32; 15], r15: R15) -> Taken
    ensures { (result.r15 ≡ r15) × (result.value ≡ (operand_of o registers.now r15.flags r15.pc).value) }
{
    Taken {
        value: operand(o, registers, r15).value,
        r15,
    }
}

// The operand of an instruction at `a`. It is matched once, for its value and for what R15 reads as.
#[inline(always)]
pub fn operand_at(i: Processing, registers: &[u32; 15], c: Context) -> Taken
    ensures { (result.r15.flags ≡ c.flags) × (result.r15.pc ≡ reads_at i c.a) × (result.value ≡ (operand_of i.operand registers.now c.flags (reads_at i c.a)).value) }
{
    match i.operand {
        Operand::Constant { .. } | Operand::ShiftByAmount { .. } => {
            take(i.operand, registers, c.r15(8))
        }
        Operand::ShiftByRegister { .. } => take(i.operand, registers, c.r15(12)),
    }
}

// The shifter's carry, or any where the operation makes C itself.
#[inline(always)]
fn shifter_carry(i: Processing, registers: &[u32; 15], r15: R15) -> bool
    ensures { (a b : ℕ) (c v : Bool) → operate i.operation a b result c v ≡ operate i.operation a b (operand_of i.operand registers.now r15.flags r15.pc).carry c v }
{
    if makes_carry(i.operation) {
        return false;
    }
    operand(i.operand, registers, r15).carry
}

// With S the flags come from the result: for R15 from its bits 31..28.
#[tactic(auto, unfolding(crate::specs::Processing::flags_after))]
#[inline(always)]
fn flags_after(i: Processing, registers: &[u32; 15], t: Taken, rn: u32, value: u32) -> u32
    requires { value ≡ (computed_by i registers.now t.r15.flags t.r15.pc rn t.value).value }
    ensures { result ≡ flags_after i t.r15.flags (computed_by i registers.now t.r15.flags t.r15.pc rn t.value) }
{
    if i.s {
        if i.rd < 15 {
            let carry = shifter_carry(i, registers, t.r15);
            made_flags(i.operation, rn, t.value, carry, t.r15.flags)
        } else {
            field(value, 28, 4)
        }
    } else {
        t.r15.flags
    }
}

// TST to CMN store no result.
#[inline(always)]
fn store_result(i: Processing, registers: &mut [u32; 15], flags: u32, value: u32) -> Outcome
    ensures { out registers.new result.flags result.goes ≡ result_stored i registers.old flags value }
{
    if stores_result(i.operation) {
        arrive(registers, flags, i.rd, value)
    } else {
        Outcome { flags, goes: None }
    }
}

// An instruction whose operand is taken.
#[inline(always)]
pub fn process_taken(i: Processing, t: Taken, registers: &mut [u32; 15]) -> Outcome
    requires { t.value ≡ (operand_of i.operand registers.old t.r15.flags t.r15.pc).value }
    ensures { out registers.new result.flags result.goes ≡ processed i registers.old t.r15.flags t.r15.pc }
{
    let rn = register(registers, i.rn, t.r15.pc);
    let value = result(i.operation, rn, t.value, carry_of(t.r15.flags));
    let f = flags_after(i, registers, t, rn, value);
    store_result(i, registers, f, value)
}

// An instruction in its last own step.
pub fn process(i: Processing, registers: &mut [u32; 15], r15: R15) -> Outcome
    ensures { out registers.new result.flags result.goes ≡ processed i registers.old r15.flags r15.pc }
{
    let t = take(i.operand, registers, r15);
    process_taken(i, t, registers)
}
