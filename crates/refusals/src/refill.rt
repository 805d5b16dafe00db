// Whether a record may be in a refill: with no word in IX it is the start's, and else of an instruction that stored the counter.
ghost use Rattle.std.specs.Prelude.{◌≡◌, List, ℕ};
ghost use Rattle.word.specs.Reader.{read_of};
ghost use Rattle.registers.specs.State.{State};
ghost use Rattle.cycle.specs.Machine.{machine};
ghost use Rattle.refusals.specs.Numbers.{can_store, can_store_counter, bad_refill};

use bits::field;
use cycle::Control;
use semantics::stores::{block_stores, processing_stores, single_stores};
use stops::rules::{block_rule, processing_rule, single_rule};
use word::{Instruction, reader};

// By the word alone, since the instruction may have changed the flags.
fn can_store(word: u32) -> bool
    ensures { (s : State) → result ≡ can_store (read_of word) s }
{
    match reader::read(word) {
        Instruction::Processing(i) => processing_rule(i).is_ok() & processing_stores(i),
        Instruction::Single(i) => single_rule(i).is_ok() & single_stores(i),
        Instruction::Block(i) => block_rule(i).is_ok() & block_stores(i),
        Instruction::Branch(_) => true,
        Instruction::Multiply(_) | Instruction::Other(_) => false,
    }
}

// The condition that never passes.
const NEVER: u32 = 15;

fn can_store_counter(word: u32) -> bool
    ensures { (s : State) → result ≡ can_store_counter word s }
{
    (field(word, 28, 4) != NEVER) & can_store(word)
}

pub fn bad_refill(c: Control) -> bool
    ensures { (g mem : List ℕ) → result ≡ bad_refill c.pipe.ix (machine g c mem) }
{
    match c.pipe.ix {
        Some(word) => !can_store_counter(word),
        None => false,
    }
}
