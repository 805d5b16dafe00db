// Step k + 2 of block transfers; pc is A+12.
#![tactic(auto, unfolding(crate::specs::Steps::load_step, crate::specs::Steps::block_load_later, crate::specs::Steps::store_step, crate::specs::Steps::block_store_later, crate::specs::Steps::later_step))]

ghost use Rattle.std.specs.Prelude.{◌≡◌, List, ℕ, ◌<◌, eqb, length, drop};
ghost use Rattle.bits.specs.Choice.{pick};
ghost use Rattle.word.specs.declared.Instruction.{Instruction};
ghost use Rattle.transfer.specs.Block as block;
ghost use Rattle.memory.specs.Memory.{memory_of, write_word};
ghost use Rattle.steps.specs.Steps.{own, done, next_to_move, load_step, block_load_later, store_step, block_store_later, later_step};

use crate::ending::{last, on, still};
use crate::{After, Ended, Found, Latches, Step};
use memory::{read_word, write_word};
use registers::{arrive, put};
use transfer::block::next;
use transfer::named::{count, dropped, lowest, rest};
use transfer::{block, single};
use word::Block;

// The address after this one, or 0 where nothing of n words is left to be moved.
fn next_to_move(n: u32, address: u32) -> u32
    ensures { (xs : List ℕ) → n ≡ length xs → result ≡ next_to_move xs address }
{
    if n == 0 { 0 } else { next(address) }
}

// The first read of a block load, and the base.
fn load_first(i: Block, registers: &mut [u32; 15], memory: &[u8], found: Found) -> Step
    ensures { own registers.new result (memory_of found.board memory.now) ≡ block_load_later i 0 registers.old found.flags found.latches (memory_of found.board memory.now) }
{
    block::write_base(i, registers, found.latches.base);
    let address = next_to_move(count(rest(i.list)), found.latches.address);
    let latches = Latches {
        address,
        datum: read_word(memory, found.board, found.latches.address),
        base: 0,
    };
    on(found.flags, latches, 1)
}

// One of several registers left takes the data latch, and the next word is read.
fn load_more(k: u32, left: u32, registers: &mut [u32; 15], memory: &[u8], found: Found) -> Step
    requires { (k < 16) × (1 < length (block.named left)) }
    ensures { own registers.new result (memory_of found.board memory.now) ≡ load_step k (block.named left) registers.old found.flags found.latches (memory_of found.board memory.now) }
{
    put(registers, lowest(left).unwrap_or(16), found.latches.datum);
    let address = next_to_move(count(rest(rest(left))), found.latches.address);
    let latches = Latches {
        address,
        datum: read_word(memory, found.board, found.latches.address),
        base: 0,
    };
    on(found.flags, latches, k + 2)
}

// Step k + 3 of a block load.
fn load_step(k: u32, list: u32, registers: &mut [u32; 15], memory: &[u8], found: Found) -> Step
    ensures { own registers.new result (memory_of found.board memory.now) ≡ load_step k (drop k (block.named list)) registers.old found.flags found.latches (memory_of found.board memory.now) }
{
    let left = dropped(list, k);
    match count(left) {
        0 => still(found.flags, After::Done(Ended::Executed(0))),
        1 => last(arrive(
            registers,
            found.flags,
            lowest(left).unwrap_or(16),
            found.latches.datum,
        )),
        _ => load_more(k, left, registers, memory, found),
    }
}

// Only the first step of a block store writes the base.
fn store_base(i: Block, k: u32, registers: &mut [u32; 15], base: u32)
    ensures { registers.new ≡ pick (eqb k 0) (block.with_base i registers.old base) registers.old }
{
    if k == 0 {
        block::write_base(i, registers, base);
    }
}

// The data latch is written, and what it takes next.
fn store_more(k: u32, left: u32, registers: &[u32; 15], memory: &mut [u8], found: Found) -> Step
    requires { (k < 16) × (1 < length (block.named left)) }
    ensures { own registers.now result (memory_of found.board memory.new) ≡ store_step k (block.named left) registers.now found.flags found.pc found.latches (memory_of found.board memory.old) }
{
    write_word(
        memory,
        found.board,
        found.latches.address,
        found.latches.datum,
    );
    let datum = single::stored_value(registers, lowest(rest(left)).unwrap_or(16), found.r15());
    let latches = Latches {
        address: next(found.latches.address),
        datum,
        base: 0,
    };
    on(found.flags, latches, k + 1)
}

fn store_last(memory: &mut [u8], found: Found) -> Step
    ensures { (g : List ℕ) → own g result (memory_of found.board memory.new) ≡ done g found.flags (write_word (memory_of found.board memory.old) found.latches.address found.latches.datum) }
{
    write_word(
        memory,
        found.board,
        found.latches.address,
        found.latches.datum,
    );
    still(found.flags, After::Done(Ended::Executed(0)))
}

// Step k + 2 of a block store, the base apart.
fn store_step(k: u32, list: u32, registers: &[u32; 15], memory: &mut [u8], found: Found) -> Step
    ensures { own registers.now result (memory_of found.board memory.new) ≡ store_step k (drop k (block.named list)) registers.now found.flags found.pc found.latches (memory_of found.board memory.old) }
{
    let left = dropped(list, k);
    match count(left) {
        0 => still(found.flags, After::Done(Ended::Executed(0))),
        1 => store_last(memory, found),
        _ => store_more(k, left, registers, memory, found),
    }
}

fn block_load_later(
    i: Block,
    k: u32,
    registers: &mut [u32; 15],
    memory: &[u8],
    found: Found,
) -> Step
    ensures { own registers.new result (memory_of found.board memory.now) ≡ block_load_later i k registers.old found.flags found.latches (memory_of found.board memory.now) }
{
    if k == 0 {
        load_first(i, registers, memory, found)
    } else {
        load_step(k - 1, i.list, registers, memory, found)
    }
}

fn block_store_later(
    i: Block,
    k: u32,
    registers: &mut [u32; 15],
    memory: &mut [u8],
    found: Found,
) -> Step
    ensures { own registers.new result (memory_of found.board memory.new) ≡ block_store_later i k registers.old found.flags found.pc found.latches (memory_of found.board memory.old) }
{
    store_base(i, k, registers, found.latches.base);
    store_step(k, i.list, registers, memory, found)
}

pub fn later_block(
    i: Block,
    k: u32,
    registers: &mut [u32; 15],
    memory: &mut [u8],
    found: Found,
) -> Step
    ensures { own registers.new result (memory_of found.board memory.new) ≡ later_step (Instruction.Block i) k registers.old found.flags found.pc found.latches (memory_of found.board memory.old) }
{
    if i.l {
        block_load_later(i, k, registers, memory, found)
    } else {
        block_store_later(i, k, registers, memory, found)
    }
}
