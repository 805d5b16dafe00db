// The registers R0 to R14, lent as an array; what R15 reads as is lent beside them.
#![tactic(auto)]

ghost use Rattle.std.specs.Prelude.{◌≡◌};
ghost use Rattle.datapath.specs.Counter.{ahead};
ghost use Rattle.registers.specs.Registers.{register, put, out, arrives};

use datapath::counter::{R15, ahead};
use memory::Board;

// What an instruction finds besides the registers and the lent bytes: the flags, its own address, and the board.
#[derive(Clone, Copy)]
pub struct Context {
    pub flags: u32,
    pub a: u32,
    pub board: Board,
}

impl Context {
    // What R15 is read from, n bytes on.
    pub fn r15(self, n: u32) -> R15
        ensures { (result.flags ≡ self.flags) × (result.pc ≡ ahead self.a n) }
    {
        R15 {
            flags: self.flags,
            pc: ahead(self.a, n),
        }
    }
}

// What an instruction leaves beside the registers. The counter goes to bits 25..2 of a stored word, or on where none is stored.
#[derive(Clone, Copy)]
pub struct Outcome {
    pub flags: u32,
    pub goes: Option<u32>,
}

#[tactic(auto, unfolding(crate::specs::Registers::register))]
pub fn register(registers: &[u32; 15], n: u32, r15: u32) -> u32
    ensures { result ≡ register registers.now n r15 }
{
    if n < 15 { registers[n as usize] } else { r15 }
}

#[tactic(auto, unfolding(crate::specs::Registers::put))]
pub fn put(registers: &mut [u32; 15], n: u32, value: u32)
    ensures { registers.new ≡ put registers.old n value }
{
    if n < 15 {
        registers[n as usize] = value;
    }
}

// A result or a loaded word on its way to register n, which for 15 is the counter.
#[tactic(auto, unfolding(crate::specs::Registers::arrives))]
pub fn arrive(registers: &mut [u32; 15], flags: u32, n: u32, value: u32) -> Outcome
    ensures { out registers.new result.flags result.goes ≡ arrives registers.old flags n value }
{
    if n < 15 {
        registers[n as usize] = value;
        Outcome { flags, goes: None }
    } else {
        Outcome {
            flags,
            goes: Some(value),
        }
    }
}
