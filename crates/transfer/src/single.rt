// Single transfers (paper 01, "Single"). pc is what R15 reads as, A+8.
ghost use Rattle.std.specs.Prelude.{◌≡◌};
ghost use Rattle.datapath.specs.Alu.{carry_of};
ghost use Rattle.datapath.specs.Shifter.{by_amount};
ghost use Rattle.memory.specs.Memory.{memory_of};
ghost use Rattle.transfer.specs.Single.{offset_of, moved, changed_base, address_of, writes_base, with_base, loaded_value, stored_value, stored_to};

use crate::Reach;
use datapath::counter::R15;
use datapath::{alu, shifter};
use memory;
use memory::Board;
use registers;
use word::{Operand, Single};

// Rm shifted by an amount in the word. Most offsets are twelve bits: this one stands out of the way of those.
#[inline(never)]
fn shifted_offset(kind: u32, v: u32, amount: u32, flags: u32) -> u32
    ensures { result ≡ (by_amount kind v amount (carry_of flags)).value }
{
    shifter::by_amount(kind, v, amount, alu::carry_of(flags)).value
}

// Twelve bits, or Rm shifted by an amount in the word.
#[tactic(auto, unfolding(crate::specs::Single::offset_of))]
pub fn offset(o: Operand, registers: &[u32; 15], flags: u32) -> u32
    ensures { result ≡ offset_of o registers.now flags }
{
    match o {
        Operand::Constant { rotate, value } => (rotate << 8).wrapping_add(value),
        Operand::ShiftByAmount { rm, shift, amount } => {
            shifted_offset(shift, registers::register(registers, rm, 0), amount, flags)
        }
        Operand::ShiftByRegister { .. } => 0,
    }
}

// A base plus (up) or minus an offset, modulo 2^32.
pub fn moved(up: bool, base: u32, offset: u32) -> u32
    ensures { result ≡ moved up base offset }
{
    if up {
        base.wrapping_add(offset)
    } else {
        base.wrapping_sub(offset)
    }
}

// The changed base and the address, each made once: the address is the changed base, or the base if P = 0.
#[tactic(auto, unfolding(crate::specs::Single::changed_base, crate::specs::Single::address_of))]
pub fn reach(i: Single, registers: &[u32; 15], r15: R15) -> Reach
    ensures { (result.base ≡ changed_base i registers.now r15.flags r15.pc) × (result.address ≡ address_of i registers.now r15.flags r15.pc) }
{
    let rn = registers::register(registers, i.rn, r15.pc);
    let base = moved(i.u, rn, offset(i.offset, registers, r15.flags));
    if i.p {
        Reach {
            base,
            address: base,
        }
    } else {
        Reach { base, address: rn }
    }
}

pub fn changed_base(i: Single, registers: &[u32; 15], r15: R15) -> u32
    ensures { result ≡ changed_base i registers.now r15.flags r15.pc }
{
    reach(i, registers, r15).base
}

pub fn address(i: Single, registers: &[u32; 15], r15: R15) -> u32
    ensures { result ≡ address_of i registers.now r15.flags r15.pc }
{
    reach(i, registers, r15).address
}

pub fn writes_base(i: Single) -> bool
    ensures { result ≡ writes_base i }
{
    !i.p | i.w
}

#[tactic(auto, unfolding(crate::specs::Single::with_base))]
pub fn write_base(i: Single, registers: &mut [u32; 15], base: u32)
    ensures { registers.new ≡ with_base i registers.old base }
{
    if writes_base(i) {
        registers::put(registers, i.rn, base);
    }
}

// A word comes rotated by its place in the word of memory.
#[tactic(auto, unfolding(crate::specs::Single::loaded_value))]
pub fn loaded_value(i: Single, memory: &[u8], board: Board, address: u32) -> u32
    ensures { result ≡ loaded_value i (memory_of board memory.now) address }
{
    if i.b {
        memory::read_byte(memory, board, address)
    } else {
        shifter::rotate(memory::read_word(memory, board, address), 8 * (address % 4))
    }
}

// Register n as a store sends it: R15 with its flags, and A+12 for the counter.
#[tactic(auto, unfolding(crate::specs::Single::stored_value))]
pub fn stored_value(registers: &[u32; 15], n: u32, r15: R15) -> u32
    ensures { result ≡ stored_value registers.now n r15.flags r15.pc }
{
    registers::register(registers, n, r15.word())
}

#[tactic(auto, unfolding(crate::specs::Single::stored_to))]
pub fn store(i: Single, memory: &mut [u8], board: Board, address: u32, value: u32)
    ensures { memory_of board memory.new ≡ stored_to i (memory_of board memory.old) address value }
{
    if i.b {
        memory::write_byte(memory, board, address, value);
    } else {
        memory::write_word(memory, board, address, value);
    }
}
