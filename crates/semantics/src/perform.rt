// An instruction word in a state: skipped, stopped or done. The registers and the memory are lent, the rest goes by value.
ghost use Rattle.std.specs.Prelude.{◌≡◌, ◌+◌, ◌<◌, ◌≤◌, ◌^◌};
ghost use Rattle.word.specs.declared.Instruction.{Instruction};
ghost use Rattle.word.specs.Reader.{read_of};
ghost use Rattle.transfer.specs.Single.{changed_base, address_of};
ghost use Rattle.transfer.specs.Block.{named, loads, count};
ghost use Rattle.datapath.specs.Counter.{ahead};
ghost use Rattle.memory.specs.Memory.{Memory, memory_of, word_at};
ghost use Rattle.registers.specs.Registers.{arrives};
ghost use Rattle.registers.specs.State.{state, state_in};
ghost use Rattle.semantics.specs.Effect.{Left, base_then_register, base_then_registers, load_effect, store_effect, block_load_effect, block_store_effect};
ghost use Rattle.semantics.specs.Duration.{single_steps, block_steps, refills, next_address};
ghost use Rattle.semantics.specs.Perform.{result_of, performed, done, executed, performs};
ghost use Rattle.semantics.specs.Told.{done_by, told};
ghost use Rattle.semantics.specs.Sums.{load_sums, store_sums, block_load_sums, executed_sums, performs_sums};
ghost use Rattle.semantics.specs.Tally.{Roomy, tally, raised, with_refills};

use crate::branch::branch;
use crate::own_steps::{
    BRANCH_STEPS, REFILLS, SKIPPED_STEPS, block_steps, multiply_steps, processing_steps,
    single_steps,
};
use crate::raise::raise;
use crate::{Performed, Tally};
use bits::field;
use condition::passes;
use datapath::counter::{ahead, counter};
use memory::fetch;
use multiply::multiply;
use processing::{operand_at, process_taken};
use registers::{Context, Outcome, arrive};
use stops::reason::Stop;
use stops::stop::{block_stop, multiply_stop, processing_stop, single_stop_at};
use transfer::named::count;
use transfer::{Reach, block, single};
use word::{Block, Branch, Instruction, Multiply, Processing, Single, reader};

// Done in so many own steps, with the counter going on.
fn went_on(a: u32, steps: u32, flags: u32) -> Performed
    ensures { done_by result ≡ performed 0 flags (ahead a 4) steps }
{
    Performed {
        flags,
        next: ahead(a, 4),
        cycles: steps,
    }
}

// Done in so many own steps, plus 2 if the counter was stored.
fn done(a: u32, steps: u32, t: Outcome, w: &mut Tally) -> Performed
    requires { (steps ≤ 18) × (w.old.n < 2 ^ 63) × (w.old.extra < 2 ^ 63) }
    ensures told { done_by result ≡ performed 0 t.flags (next_address a t.goes) (steps + refills t.goes) }
    ensures tally { w.new ≡ with_refills w.old t.goes }
{
    match t.goes {
        None => went_on(a, steps, t.flags),
        Some(word) => {
            raise(w, 1, 2);
            Performed {
                flags: t.flags,
                next: counter(word),
                cycles: steps + REFILLS,
            }
        }
    }
}

// The operand is taken first, while the reader's choice of its kind is at hand; a stop has no use for it.
fn perform_processing(
    i: Processing,
    registers: &mut [u32; 15],
    c: Context,
    w: &mut Tally,
) -> Result<Performed, Stop>
    requires { Roomy w.old }
    ensures told { (mem : Memory) → result_of (told c.flags c.a result) registers.new mem ≡ executed (Instruction.Processing i) (state registers.old c.flags c.a mem) }
    ensures tally { (mem : Memory) → w.new ≡ raised w.old (executed_sums (Instruction.Processing i) (state registers.old c.flags c.a mem)) }
{
    let t = operand_at(i, registers, c);
    processing_stop(i)?;
    let steps = processing_steps(i);
    let left = process_taken(i, t, registers);
    Ok(done(c.a, steps, left, w))
}

// `arrive`, with each part of what it leaves told by itself.
fn arrived(registers: &mut [u32; 15], flags: u32, n: u32, value: u32) -> Outcome
    ensures { Left (arrives registers.old flags n value) registers.new result }
{
    arrive(registers, flags, n, value)
}

// The base, then the register: a load into the base register wins.
fn base_then_register(
    i: Single,
    registers: &mut [u32; 15],
    flags: u32,
    changed: u32,
    value: u32,
) -> Outcome
    ensures { Left (base_then_register i registers.old flags changed value) registers.new result }
{
    single::write_base(i, registers, changed);
    arrived(registers, flags, i.rd, value)
}

fn load(
    i: Single,
    at: Reach,
    registers: &mut [u32; 15],
    memory: &[u8],
    c: Context,
    w: &mut Tally,
) -> Performed
    requires { (at.base ≡ changed_base i registers.old c.flags (ahead c.a 8)) × (at.address ≡ address_of i registers.old c.flags (ahead c.a 8)) × Roomy w.old }
    ensures told { result_of (done_by result) registers.new (memory_of c.board memory.now) ≡ done (state_in c registers.old memory.now) (single_steps i) (load_effect i (state_in c registers.old memory.now)) }
    ensures tally { w.new ≡ with_refills (raised w.old load_sums) (load_effect i (state_in c registers.old memory.now)).out.goes }
{
    let value = single::loaded_value(i, memory, c.board, at.address);
    let steps = single_steps(i);
    raise(w, 1, 1);
    let left = base_then_register(i, registers, c.flags, at.base, value);
    done(c.a, steps, left, w)
}

#[tactic(auto, unfolding(crate::specs::Effect::store_effect))]
fn store(
    i: Single,
    at: Reach,
    registers: &mut [u32; 15],
    memory: &mut [u8],
    c: Context,
    w: &mut Tally,
) -> Performed
    requires { (at.base ≡ changed_base i registers.old c.flags (ahead c.a 8)) × (at.address ≡ address_of i registers.old c.flags (ahead c.a 8)) × Roomy w.old }
    ensures told { result_of (done_by result) registers.new (memory_of c.board memory.new) ≡ done (state_in c registers.old memory.old) (single_steps i) (store_effect i (state_in c registers.old memory.old)) }
    ensures tally { w.new ≡ raised w.old store_sums }
{
    raise(w, 2, 1);
    let value = single::stored_value(registers, i.rd, c.r15(12));
    single::store(i, memory, c.board, at.address, value);
    single::write_base(i, registers, at.base);
    went_on(c.a, single_steps(i), c.flags)
}

fn perform_single(
    i: Single,
    registers: &mut [u32; 15],
    memory: &mut [u8],
    c: Context,
    w: &mut Tally,
) -> Result<Performed, Stop>
    requires { Roomy w.old }
    ensures told { result_of (told c.flags c.a result) registers.new (memory_of c.board memory.new) ≡ executed (Instruction.Single i) (state_in c registers.old memory.old) }
    ensures tally { w.new ≡ raised w.old (executed_sums (Instruction.Single i) (state_in c registers.old memory.old)) }
{
    let at = single::reach(i, registers, c.r15(8));
    single_stop_at(i, at.address, c)?;
    Ok(if i.l {
        load(i, at, registers, memory, c, w)
    } else {
        store(i, at, registers, memory, c, w)
    })
}

// `block::load`, with each part of what it leaves told by itself.
fn loaded(list: u32, registers: &mut [u32; 15], lowest: u32, memory: &[u8], c: Context) -> Outcome
    ensures { Left (loads (named list) registers.old c.flags lowest (memory_of c.board memory.now)) registers.new result }
{
    block::load(list, registers, c.flags, lowest, memory, c.board)
}

// The base, then the registers: a loaded base wins.
fn base_then_registers(
    i: Block,
    registers: &mut [u32; 15],
    changed: u32,
    lowest: u32,
    memory: &[u8],
    c: Context,
) -> Outcome
    ensures { Left (base_then_registers i registers.old c.flags changed lowest (memory_of c.board memory.now)) registers.new result }
{
    block::write_base(i, registers, changed);
    loaded(i.list, registers, lowest, memory, c)
}

fn load_block(
    i: Block,
    registers: &mut [u32; 15],
    memory: &[u8],
    c: Context,
    w: &mut Tally,
) -> Performed
    requires { Roomy w.old }
    ensures told { result_of (done_by result) registers.new (memory_of c.board memory.now) ≡ done (state_in c registers.old memory.now) (block_steps i) (block_load_effect i (state_in c registers.old memory.now)) }
    ensures tally { w.new ≡ with_refills (raised w.old (block_load_sums (count i))) (block_load_effect i (state_in c registers.old memory.now)).out.goes }
{
    let lowest = block::lowest_address(i, registers);
    let base = block::changed_base(i, registers);
    let steps = block_steps(i);
    raise(w, 1, u64::from(count(i.list)));
    let left = base_then_registers(i, registers, base, lowest, memory, c);
    done(c.a, steps, left, w)
}

#[tactic(auto, unfolding(crate::specs::Effect::block_store_effect))]
fn store_block(
    i: Block,
    registers: &mut [u32; 15],
    memory: &mut [u8],
    c: Context,
    w: &mut Tally,
) -> Performed
    requires { Roomy w.old }
    ensures told { result_of (done_by result) registers.new (memory_of c.board memory.new) ≡ done (state_in c registers.old memory.old) (block_steps i) (block_store_effect i (state_in c registers.old memory.old)) }
    ensures tally { w.new ≡ tally (w.old.n + 2) (w.old.extra + count i) }
{
    raise(w, 2, u64::from(count(i.list)));
    block::store_all(i, registers, c.r15(12), memory, c.board);
    went_on(c.a, block_steps(i), c.flags)
}

fn perform_block(
    i: Block,
    registers: &mut [u32; 15],
    memory: &mut [u8],
    c: Context,
    w: &mut Tally,
) -> Result<Performed, Stop>
    requires { Roomy w.old }
    ensures told { result_of (told c.flags c.a result) registers.new (memory_of c.board memory.new) ≡ executed (Instruction.Block i) (state_in c registers.old memory.old) }
    ensures tally { w.new ≡ raised w.old (executed_sums (Instruction.Block i) (state_in c registers.old memory.old)) }
{
    block_stop(i, registers, c)?;
    Ok(if i.l {
        load_block(i, registers, memory, c, w)
    } else {
        store_block(i, registers, memory, c, w)
    })
}

fn perform_branch(
    i: Branch,
    registers: &mut [u32; 15],
    c: Context,
    w: &mut Tally,
) -> Result<Performed, Stop>
    requires { Roomy w.old }
    ensures told { (mem : Memory) → result_of (told c.flags c.a result) registers.new mem ≡ executed (Instruction.Branch i) (state registers.old c.flags c.a mem) }
    ensures tally { (mem : Memory) → w.new ≡ raised w.old (executed_sums (Instruction.Branch i) (state registers.old c.flags c.a mem)) }
{
    let left = branch(i, registers, c.flags, c.a);
    Ok(done(c.a, BRANCH_STEPS, left, w))
}

// The steps go by Rs before Rd is written, which may be the same.
fn perform_multiply(i: Multiply, registers: &mut [u32; 15], c: Context) -> Result<Performed, Stop>
    ensures { (mem : Memory) → result_of (told c.flags c.a result) registers.new mem ≡ executed (Instruction.Multiply i) (state registers.old c.flags c.a mem) }
{
    multiply_stop(i)?;
    let steps = multiply_steps(i, registers);
    Ok(went_on(c.a, steps, multiply(i, registers, c.flags)))
}

// By the kind of the word, each class in one place, so that its reader and its road dissolve here.
fn execute(
    word: u32,
    registers: &mut [u32; 15],
    memory: &mut [u8],
    c: Context,
    w: &mut Tally,
) -> Result<Performed, Stop>
    requires { Roomy w.old }
    ensures told { result_of (told c.flags c.a result) registers.new (memory_of c.board memory.new) ≡ executed (read_of word) (state_in c registers.old memory.old) }
    ensures tally { w.new ≡ raised w.old (executed_sums (read_of word) (state_in c registers.old memory.old)) }
{
    match reader::read(word) {
        Instruction::Processing(i) => perform_processing(i, registers, c, w),
        Instruction::Single(i) => perform_single(i, registers, memory, c, w),
        Instruction::Block(i) => perform_block(i, registers, memory, c, w),
        Instruction::Branch(i) => perform_branch(i, registers, c, w),
        Instruction::Multiply(i) => perform_multiply(i, registers, c),
        Instruction::Other(_) => Err(Stop::OtherWord),
    }
}

#[tactic(auto, using(crate::proofs::Results::passing, crate::proofs::Results::failing))]
fn perform(
    word: u32,
    registers: &mut [u32; 15],
    memory: &mut [u8],
    c: Context,
    w: &mut Tally,
) -> Result<Performed, Stop>
    requires { Roomy w.old }
    ensures told { result_of (told c.flags c.a result) registers.new (memory_of c.board memory.new) ≡ performs (Some word) (state_in c registers.old memory.old) }
    ensures tally { w.new ≡ raised w.old (performs_sums (Some word) (state_in c registers.old memory.old)) }
{
    if passes(field(word, 28, 4), c.flags) {
        execute(word, registers, memory, c, w)
    } else {
        Ok(went_on(c.a, SKIPPED_STEPS, c.flags))
    }
}

// What is fetched at `a`, performed there.
pub fn perform_at(
    registers: &mut [u32; 15],
    memory: &mut [u8],
    c: Context,
    w: &mut Tally,
) -> Result<Performed, Stop>
    requires { Roomy w.old }
    ensures told { result_of (told c.flags c.a result) registers.new (memory_of c.board memory.new) ≡ performs (word_at (memory_of c.board memory.old) c.a) (state_in c registers.old memory.old) }
    ensures tally { w.new ≡ raised w.old (performs_sums (word_at (memory_of c.board memory.old) c.a) (state_in c registers.old memory.old)) }
{
    match fetch(memory, c.board, c.a) {
        Some(word) => perform(word, registers, memory, c, w),
        None => Err(Stop::NoWord),
    }
}
