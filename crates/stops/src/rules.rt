// The rules of stop 23.
ghost use Rattle.std.specs.Prelude.{◌≡◌, ◌&&◌, ◌||◌};
ghost use Rattle.transfer.specs.Single.{writes_base};
ghost use Rattle.registers.specs.State.{State};
ghost use Rattle.stops.specs.declared.reason.Stop.TheVariants.{BrokenRule};
ghost use Rattle.stops.specs.Numbers.{rule_number};
ghost use Rattle.stops.specs.Rules.{first_broken, is15, rs_is15, rm_is15, processing_rules, single_rules, block_rules, multiply_rules};

use crate::reason::Stop;
use datapath::alu::stores_result;
use transfer::named::count;
use transfer::single::writes_base;
use word::{Block, Multiply, Operand, Processing, Single};

// The ten rules in their order; the record of a word breaks the first of them that is told.
#[derive(Clone, Copy, PartialEq, Eq, Debug)]
pub enum Rule {
    // Rs=15.
    ShiftBy15,
    // TST to CMN without S.
    TestWithoutS,
    // A single with base 15 and P=0 or W=1.
    WritesBase15,
    // A register offset 15.
    Offset15,
    // A byte with Rd=15.
    Byte15,
    // A block with base 15.
    BlockBase15,
    // A block with S=1.
    BlockWithS,
    // A block with no register.
    BlockOfNone,
    // A multiply with Rd=Rm.
    MultiplyRdIsRm,
    // A multiply with any of the four fields 15.
    MultiplyOf15,
}

impl From<Rule> for Stop {
    ghost from_gives = { λ _ stop. stop ≡ BrokenRule };

    fn from(_rule: Rule) -> Stop {
        Stop::BrokenRule
    }
}

fn rs_is_15(o: Operand) -> bool
    ensures { result ≡ rs_is15 o }
{
    matches!(o, Operand::ShiftByRegister { rs, .. } if 15 <= rs)
}

fn rm_is_15(o: Operand) -> bool
    ensures { result ≡ rm_is15 o }
{
    matches!(o, Operand::ShiftByAmount { rm, .. } | Operand::ShiftByRegister { rm, .. } if 15 <= rm)
}

// The first rule that is broken.
pub fn processing_rule(i: Processing) -> Result<(), Rule>
    ensures { (s : State) → rule_number result ≡ first_broken 1 (processing_rules i s) }
{
    if rs_is_15(i.operand) {
        return Err(Rule::ShiftBy15);
    }
    if !stores_result(i.operation) & !i.s {
        return Err(Rule::TestWithoutS);
    }
    Ok(())
}

fn writes_15(i: Single) -> bool
    ensures { result ≡ (is15 i.rn && writes_base i) }
{
    (15 <= i.rn) & writes_base(i)
}

fn byte_15(i: Single) -> bool
    ensures { result ≡ (i.b && is15 i.rd) }
{
    i.b & (15 <= i.rd)
}

pub fn single_rule(i: Single) -> Result<(), Rule>
    ensures { rule_number result ≡ first_broken 3 (single_rules i) }
{
    if writes_15(i) {
        return Err(Rule::WritesBase15);
    }
    if rm_is_15(i.offset) {
        return Err(Rule::Offset15);
    }
    if byte_15(i) {
        return Err(Rule::Byte15);
    }
    Ok(())
}

pub fn block_rule(b: Block) -> Result<(), Rule>
    ensures { rule_number result ≡ first_broken 6 (block_rules b) }
{
    if 15 <= b.rn {
        return Err(Rule::BlockBase15);
    }
    if b.s {
        return Err(Rule::BlockWithS);
    }
    if count(b.list) == 0 {
        return Err(Rule::BlockOfNone);
    }
    Ok(())
}

fn field_is_15(i: Multiply) -> bool
    ensures { result ≡ ((is15 i.rd || is15 i.rn) || (is15 i.rs || is15 i.rm)) }
{
    ((15 <= i.rd) | (15 <= i.rn)) | ((15 <= i.rs) | (15 <= i.rm))
}

pub fn multiply_rule(i: Multiply) -> Result<(), Rule>
    ensures { rule_number result ≡ first_broken 9 (multiply_rules i) }
{
    if i.rd == i.rm {
        return Err(Rule::MultiplyRdIsRm);
    }
    if field_is_15(i) {
        return Err(Rule::MultiplyOf15);
    }
    Ok(())
}
