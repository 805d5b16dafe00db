// Block transfers (paper 01, "Block"). R15 is stored as what is lent as `r15`, at A+12.
ghost use Rattle.std.specs.Prelude.{◌≡◌, ◌+◌, ◌%◌, ◌^◌, take};
ghost use Rattle.memory.specs.Bytes.{word_base};
ghost use Rattle.memory.specs.Memory.{memory_of};
ghost use Rattle.registers.specs.Registers.{out};
ghost use Rattle.transfer.specs.Block.{named, base_of, changed_base, above, lowest_address, with_base, next, loads, stores, stores_all};

use crate::named::NamedRegisters;
use crate::{named, single};
use datapath::counter::R15;
use memory;
use memory::Board;
use memory::bytes::word_base;
use registers;
use registers::Outcome;
use word::Block;

// The address of the next word.
pub fn next(address: u32) -> u32
    ensures { result ≡ next address }
{
    address.wrapping_add(4)
}

// The base, which is never R15 in an instruction that is done.
fn base(i: Block, registers: &[u32; 15]) -> u32
    ensures { result ≡ base_of i registers.now }
{
    registers::register(registers, i.rn, 0)
}

// Base plus or minus 4n.
pub fn changed_base(i: Block, registers: &[u32; 15]) -> u32
    ensures { result ≡ changed_base i registers.now }
{
    single::moved(i.u, base(i, registers), 4 * named::count(i.list))
}

// How far above the base, or the changed base if U=0, the words begin.
fn above(u: bool, p: bool) -> u32
    ensures { result ≡ above u p }
{
    if u {
        if p { 4 } else { 0 }
    } else {
        if p { 0 } else { 4 }
    }
}

// The word so far above an address.
fn begin(low: u32, by: u32) -> u32
    ensures { result ≡ word_base ((low + by) % 2 ^ 32) }
{
    word_base(low.wrapping_add(by))
}

// Where the lowest register goes, low two bits cleared.
#[tactic(auto, unfolding(crate::specs::Block::lowest_address))]
pub fn lowest_address(i: Block, registers: &[u32; 15]) -> u32
    ensures { result ≡ lowest_address i registers.now }
{
    let by = above(i.u, i.p);
    if i.u {
        begin(base(i, registers), by)
    } else {
        begin(changed_base(i, registers), by)
    }
}

// Only W writes the base.
#[tactic(auto, unfolding(crate::specs::Block::with_base))]
pub fn write_base(i: Block, registers: &mut [u32; 15], base: u32)
    ensures { registers.new ≡ with_base i registers.old base }
{
    if i.w {
        registers::put(registers, i.rn, base);
    }
}

// The named registers loaded, lowest first. The last may be R15, which goes to the counter.
pub fn load(
    list: u32,
    registers: &mut [u32; 15],
    flags: u32,
    address: u32,
    memory: &[u8],
    board: Board,
) -> Outcome
    ensures { out registers.new result.flags result.goes ≡ loads (named list) registers.old flags address (memory_of board memory.now) }
{
    let mut outcome = Outcome { flags, goes: None };
    let mut at = address;
    for n in NamedRegisters(list) {
        outcome = registers::arrive(registers, flags, n, memory::read_word(memory, board, at));
        at = next(at);
    }
    outcome
}

// The named registers stored, lowest first.
#[tactic(auto, unfolding(crate::specs::Block::stores))]
pub fn store(
    list: u32,
    registers: &[u32; 15],
    r15: R15,
    address: u32,
    memory: &mut [u8],
    board: Board,
)
    ensures { memory_of board memory.new ≡ stores (named list) registers.now r15.flags r15.pc address (memory_of board memory.old) }
{
    let mut at = address;
    for n in NamedRegisters(list) {
        memory::write_word(memory, board, at, single::stored_value(registers, n, r15));
        at = next(at);
    }
}

// The lowest named register stored, if there is one.
fn store_lowest(
    list: u32,
    registers: &[u32; 15],
    r15: R15,
    address: u32,
    memory: &mut [u8],
    board: Board,
)
    ensures { memory_of board memory.new ≡ stores (take 1 (named list)) registers.now r15.flags r15.pc address (memory_of board memory.old) }
{
    if let Some(n) = named::lowest(list) {
        let value = single::stored_value(registers, n, r15);
        memory::write_word(memory, board, address, value);
    }
}

// A whole store: the lowest register from the old registers, the others after the base is written.
pub fn store_all(i: Block, registers: &mut [u32; 15], r15: R15, memory: &mut [u8], board: Board)
    ensures registers_after { registers.new ≡ with_base i registers.old (changed_base i registers.old) }
    ensures memory_after { memory_of board memory.new ≡ stores_all (named i.list) registers.old (with_base i registers.old (changed_base i registers.old)) r15.flags r15.pc (lowest_address i registers.old) (memory_of board memory.old) }
{
    let address = lowest_address(i, registers);
    let base = changed_base(i, registers);
    store_lowest(i.list, registers, r15, address, memory, board);
    write_base(i, registers, base);
    let others = named::rest(i.list);
    let after = next(address);
    store(others, registers, r15, after, memory, board);
}
