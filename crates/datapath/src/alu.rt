// The ALU: the sixteen operations, and the flags they leave with S (paper 01, "Operations 0-15").
ghost use Rattle.std.specs.Prelude.{◌≡◌, ℕ, Bool, true, min};
ghost use Rattle.bits.specs.Choice.{pick};
ghost use Rattle.datapath.specs.Alu.{computed, sum_overflows, difference_overflows, sum, difference, operation_number, operate, stores_result, flags_of, carry_of, overflow_of};

use super::Computed;

// V of a result r: the signs of a and b are alike for a sum, or differ for a difference, and r's is not a's.
fn overflows(a: u32, b: u32, r: u32, alike: bool) -> bool
    ensures { result ≡ pick alike (sum_overflows a b r) (difference_overflows a b r) }
{
    let sign = bits::bit(a, 31);
    ((sign == bits::bit(b, 31)) == alike) & (bits::bit(r, 31) != sign)
}

// The result wraps; C is worked out beside it, from the whole sum.
#[inline(always)]
#[tactic(auto, unfolding(crate::specs::Alu::sum))]
pub fn sum(a: u32, b: u32, c: bool) -> Computed
    ensures { result ≡ sum a b c }
{
    let more = bits::number(c);
    let value = a.wrapping_add(b).wrapping_add(more);
    Computed {
        value,
        carry: 0x100000000 <= u64::from(a) + u64::from(b) + u64::from(more),
        overflow: overflows(a, b, value, true),
    }
}

// The result wraps; C is worked out beside it, from what is taken off.
#[inline(always)]
#[tactic(auto, unfolding(crate::specs::Alu::difference))]
pub fn difference(a: u32, b: u32, c: bool) -> Computed
    ensures { result ≡ difference a b c }
{
    let more = bits::number(!c);
    let value = a.wrapping_sub(b).wrapping_sub(more);
    Computed {
        value,
        carry: u64::from(b) + u64::from(more) <= u64::from(a),
        overflow: overflows(a, b, value, false),
    }
}

// A logical result takes C from the shifter and keeps V.
#[inline(always)]
fn logical(value: u32, s: bool, v: bool) -> Computed
    ensures { result ≡ computed value s v }
{
    Computed {
        value,
        carry: s,
        overflow: v,
    }
}

// The sixteen operations, in the order of their numbers.
#[derive(Clone, Copy, PartialEq, Eq, Debug)]
pub enum Operation {
    And,
    Eor,
    Sub,
    Rsb,
    Add,
    Adc,
    Sbc,
    Rsc,
    Tst,
    Teq,
    Cmp,
    Cmn,
    Orr,
    Mov,
    Bic,
    Mvn,
}

// Bits 24..21 of a word, as the record holds them; above 15 it is read as MVN.
impl From<u32> for Operation {
    ghost from_gives = { λ op o. operation_number o ≡ min op 15 };

    fn from(op: u32) -> Operation {
        match op {
            0 => Operation::And,
            1 => Operation::Eor,
            2 => Operation::Sub,
            3 => Operation::Rsb,
            4 => Operation::Add,
            5 => Operation::Adc,
            6 => Operation::Sbc,
            7 => Operation::Rsc,
            8 => Operation::Tst,
            9 => Operation::Teq,
            10 => Operation::Cmp,
            11 => Operation::Cmn,
            12 => Operation::Orr,
            13 => Operation::Mov,
            14 => Operation::Bic,
            _ => Operation::Mvn,
        }
    }
}

// Operation op on Rn's value a and the operand b, with the shifter's carry s and the flags C and V.
#[inline(always)]
#[tactic(auto, unfolding(crate::specs::Alu::operate))]
pub fn operate(op: u32, a: u32, b: u32, s: bool, c: bool, v: bool) -> Computed
    ensures { result ≡ operate op a b s c v }
{
    match Operation::from(op) {
        Operation::And | Operation::Tst => logical(a & b, s, v),
        Operation::Eor | Operation::Teq => logical(a ^ b, s, v),
        Operation::Sub | Operation::Cmp => difference(a, b, true),
        Operation::Rsb => difference(b, a, true),
        Operation::Add | Operation::Cmn => sum(a, b, false),
        Operation::Adc => sum(a, b, c),
        Operation::Sbc => difference(a, b, c),
        Operation::Rsc => difference(b, a, c),
        Operation::Orr => logical(a | b, s, v),
        Operation::Mov => logical(b, s, v),
        Operation::Bic => logical(a & !b, s, v),
        Operation::Mvn => logical(!b, s, v),
    }
}

// The result alone, for an instruction that leaves the flags.
#[inline(always)]
#[tactic(auto, using(crate::proofs::ValueAlone::operate_value))]
pub fn result(op: u32, a: u32, b: u32, c: bool) -> u32
    ensures { (s v : Bool) → result ≡ (operate op a b s c v).value }
{
    operate(op, a, b, false, c, false).value
}

// Whether an operation makes C itself, so that the shifter's carry is not asked for.
#[tactic(auto, unfolding(crate::specs::Alu::operate))]
pub fn makes_carry(op: u32) -> bool
    ensures { result ≡ true → (a b : ℕ) (s t c v : Bool) → operate op a b s c v ≡ operate op a b t c v }
{
    matches!(
        Operation::from(op),
        Operation::Sub
            | Operation::Rsb
            | Operation::Add
            | Operation::Adc
            | Operation::Sbc
            | Operation::Rsc
            | Operation::Cmp
            | Operation::Cmn
    )
}

// TST to CMN store no result. By number: by their names an instruction takes 2 to 4 % more.
pub fn stores_result(op: u32) -> bool
    ensures { result ≡ stores_result op }
{
    !matches!(op, 8..=11)
}

// The flags as one number, 8N+4Z+2C+V.
#[tactic(auto, unfolding(crate::specs::Alu::flags_of))]
pub fn flags_of(r: Computed) -> u32
    ensures { result ≡ flags_of r }
{
    8 * u32::from(bits::bit(r.value, 31))
        + 4 * u32::from(r.value == 0)
        + 2 * u32::from(r.carry)
        + u32::from(r.overflow)
}

// The flags that S makes of an operation, with the flags before it.
pub fn made_flags(op: u32, a: u32, b: u32, s: bool, flags: u32) -> u32
    ensures { result ≡ flags_of (operate op a b s (carry_of flags) (overflow_of flags)) }
{
    flags_of(operate(op, a, b, s, carry_of(flags), overflow_of(flags)))
}

pub fn carry_of(flags: u32) -> bool
    ensures { result ≡ carry_of flags }
{
    bits::bit(flags, 1)
}

pub fn overflow_of(flags: u32) -> bool
    ensures { result ≡ overflow_of flags }
{
    bits::bit(flags, 0)
}
