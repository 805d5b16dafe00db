// Multiply (paper 02 §1): the product, what it leaves in the registers and the flags, and its internal cycles.
#![tactic(auto)]

ghost use Rattle.std.specs.Prelude.{◌≡◌};
ghost use Rattle.registers.specs.Registers.{out};
ghost use Rattle.multiply.specs.Multiply.{addend_of, product, product_of, flags_after, multiplied};
ghost use Rattle.multiply.specs.InternalCycles.{m_of};

use datapath::Computed;
use datapath::alu::{carry_of, flags_of, overflow_of};
use registers::{put, register};
use word::Multiply;

// The paper's m of a value of Rs: a cycle for each two bits, by the value's length.
#[tactic(auto, using(crate::proofs::InternalCycles::by_length))]
pub fn m_of(rs: u32) -> u32
    ensures { result ≡ m_of rs }
{
    ((34 - rs.leading_zeros()) / 2).min(16)
}

fn addend_of(i: Multiply, registers: &[u32; 15]) -> u32
    ensures { result ≡ addend_of i registers.now }
{
    if i.accumulate {
        register(registers, i.rn, 0)
    } else {
        0
    }
}

fn product(rm: u32, rs: u32, addend: u32) -> u32
    ensures { result ≡ product rm rs addend }
{
    rm.wrapping_mul(rs).wrapping_add(addend)
}

#[tactic(auto, unfolding(crate::specs::Multiply::product_of))]
fn product_of(i: Multiply, registers: &[u32; 15]) -> u32
    ensures { result ≡ product_of i registers.now }
{
    let rm = register(registers, i.rm, 0);
    let rs = register(registers, i.rs, 0);
    product(rm, rs, addend_of(i, registers))
}

#[tactic(auto, unfolding(crate::specs::Multiply::flags_after))]
fn flags_after(i: Multiply, flags: u32, value: u32) -> u32
    ensures { result ≡ flags_after i flags value }
{
    if i.s {
        flags_of(Computed {
            value,
            carry: carry_of(flags),
            overflow: overflow_of(flags),
        })
    } else {
        flags
    }
}

// Rd is written, and the flags after it are handed back; the counter goes on.
#[tactic(auto, unfolding(crate::specs::Multiply::multiplied))]
pub fn multiply(i: Multiply, registers: &mut [u32; 15], flags: u32) -> u32
    ensures { out registers.new result None ≡ multiplied i registers.old flags }
{
    let value = product_of(i, registers);
    put(registers, i.rd, value);
    flags_after(i, flags, value)
}
