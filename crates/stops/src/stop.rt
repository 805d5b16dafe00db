// The stop that is met where an instruction begins, 21 to 25 in their order.
#![tactic(auto, unfolding(crate::specs::Stops::stop_of, crate::specs::Stops::stop_for, crate::specs::Stops::moved_stop, crate::specs::Stops::due, crate::specs::Rules::rule_broken, crate::specs::Moves::moves_of, crate::specs::Walk::walk))]

ghost use Rattle.std.specs.Prelude.{◌≡◌, ◌||◌, List, [], ℕ, eqb};
ghost use Rattle.datapath.specs.Counter.{ahead};
ghost use Rattle.bits.specs.Choice.{pick};
ghost use Rattle.word.specs.declared.Instruction.{Instruction};
ghost use Rattle.word.specs.Reader.{read_of};
ghost use Rattle.memory.specs.Memory.{Memory, memory_of};
ghost use Rattle.registers.specs.State.{State, state, state_in};
ghost use Rattle.stops.specs.Numbers.{stop_number};
ghost use Rattle.stops.specs.Moves.{span};
ghost use Rattle.stops.specs.Stops.{hits, ordered, moved_stop, single_stop_at, stop_of, stop_for};

use crate::reason::Stop;
use crate::rules::{block_rule, multiply_rule, processing_rule, single_rule};
use crate::span::{hits, outside};
use crate::walk::walk_stop;
use bits::field;
use condition::passes;
use datapath::counter::ahead;
use registers::Context;
use transfer::block::lowest_address;
use transfer::named::count;
use transfer::single::address;
use word::{Block, Instruction, Multiply, Processing, Single, reader};

// A word at A+4 or A+8 is among them.
fn hits_ahead(first: u32, n: u32, c: Context) -> bool
    ensures { result ≡ (hits (span n first) (ahead c.a 4) c.board || hits (span n first) (ahead c.a 8) c.board) }
{
    hits(first, n, ahead(c.a, 4), c.board) | hits(first, n, ahead(c.a, 8), c.board)
}

// 24 before 25.
fn ordered(out: bool, fetched: bool) -> Result<(), Stop>
    ensures { stop_number result ≡ ordered out fetched }
{
    if out {
        return Err(Stop::OutsideMemory);
    }
    if fetched {
        return Err(Stop::FetchedWord);
    }
    Ok(())
}

// 24 and 25 of n words from a first address on.
fn moved_stop(first: u32, n: u32, load: bool, c: Context) -> Result<(), Stop>
    ensures { stop_number result ≡ moved_stop (span n first) (pick load [] (span n first)) c.a c.board }
{
    let out = outside(first, n, c.board);
    if load {
        return ordered(out, false);
    }
    ordered(out, hits_ahead(first, n, c))
}

// Neither is met, as the two ends tell.
fn clear(first: u32, n: u32, load: bool, c: Context) -> bool
    ensures { result ≡ eqb (moved_stop (span n first) (pick load [] (span n first)) c.a c.board) 0 }
{
    let met = outside(first, n, c.board) || (!load && hits_ahead(first, n, c));
    !met
}

pub fn processing_stop(i: Processing) -> Result<(), Stop>
    ensures { (s : State) → stop_number result ≡ stop_of (Instruction.Processing i) s }
{
    processing_rule(i)?;
    Ok(())
}

// Of a single transfer whose address is at hand.
pub fn single_stop_at(i: Single, address: u32, c: Context) -> Result<(), Stop>
    ensures { stop_number result ≡ single_stop_at i address c.a c.board }
{
    single_rule(i)?;
    moved_stop(address, 1, i.l, c)
}

pub fn single_stop(i: Single, registers: &[u32; 15], c: Context) -> Result<(), Stop>
    ensures { (bytes : List ℕ) → stop_number result ≡ stop_of (Instruction.Single i) (state_in c registers.now bytes) }
{
    single_stop_at(i, address(i, registers, c.r15(8)), c)
}

pub fn block_stop(i: Block, registers: &[u32; 15], c: Context) -> Result<(), Stop>
    ensures { (bytes : List ℕ) → stop_number result ≡ stop_of (Instruction.Block i) (state_in c registers.now bytes) }
{
    block_rule(i)?;
    let first = lowest_address(i, registers);
    // Sooner than the walk, which is for where there is a stop to find.
    if clear(first, count(i.list), i.l, c) {
        Ok(())
    } else {
        walk_stop(i.list, first, i.l, c.a, c.board)
    }
}

pub fn multiply_stop(i: Multiply) -> Result<(), Stop>
    ensures { (s : State) → stop_number result ≡ stop_of (Instruction.Multiply i) s }
{
    multiply_rule(i)?;
    Ok(())
}

// Of a word whose condition passes, by its kind. An Other meets 22, and a branch meets none.
fn word_stop(word: u32, registers: &[u32; 15], c: Context) -> Result<(), Stop>
    ensures { (bytes : List ℕ) → stop_number result ≡ stop_of (read_of word) (state_in c registers.now bytes) }
{
    match reader::read(word) {
        Instruction::Processing(i) => processing_stop(i),
        Instruction::Single(i) => single_stop(i, registers, c),
        Instruction::Block(i) => block_stop(i, registers, c),
        Instruction::Branch(_) => Ok(()),
        Instruction::Multiply(i) => multiply_stop(i),
        Instruction::Other(_) => Err(Stop::OtherWord),
    }
}

// The stop that what was fetched meets, if there is one.
pub fn stop_for(x: Option<u32>, registers: &[u32; 15], c: Context) -> Result<(), Stop>
    ensures { (bytes : List ℕ) → stop_number result ≡ stop_for x (state_in c registers.now bytes) }
{
    let Some(word) = x else {
        return Err(Stop::NoWord);
    };
    if passes(field(word, 28, 4), c.flags) {
        word_stop(word, registers, c)
    } else {
        Ok(())
    }
}
