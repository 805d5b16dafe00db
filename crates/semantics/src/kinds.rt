// The cycles of a word's instruction by kind, as they are added where it retires.
// From the word, as an engine goes: a record that a caller lends would go through memory.
ghost use Rattle.std.specs.Prelude.{◌≡◌, ◌≤◌, ◌<◌, ◌^◌, ℕ};
ghost use Rattle.bits.specs.Choice.{pick};
ghost use Rattle.word.specs.declared.Instruction.{Instruction};
ghost use Rattle.word.specs.Reader.{read_of};
ghost use Rattle.semantics.specs.Sums.{nsi, plus, total, refill_sums, processing_sums, single_sums, block_sums, sums_of};

use crate::Sums;
use crate::stores::{block_stores, processing_stores, single_stores};
use processing::shifts_by_register;
use transfer::named::count;
use word::{Block, Instruction, Processing, Single, reader};

pub fn nsi(n: u64, s: u64, i: u64) -> Sums
    ensures { result ≡ nsi n s i }
{
    Sums { n, s, i }
}

// A stored counter has the two refills more, N and S.
fn with_refills(own: Sums, stores: bool) -> Sums
    requires { total own ≤ 20 }
    ensures { result ≡ pick stores (plus own refill_sums) own }
{
    if stores {
        nsi(own.n + 1, own.s + 1, own.i)
    } else {
        own
    }
}

fn processing_sums(i: Processing) -> Sums
    ensures { result ≡ processing_sums i }
{
    if shifts_by_register(i.operand) {
        nsi(0, 1, 1)
    } else {
        nsi(0, 1, 0)
    }
}

fn single_sums(i: Single) -> Sums
    ensures { result ≡ single_sums i }
{
    if i.l { nsi(1, 1, 1) } else { nsi(2, 0, 0) }
}

fn block_sums(i: Block) -> Sums
    ensures { result ≡ block_sums i }
{
    let n = u64::from(count(i.list));
    if i.l {
        nsi(1, n, 1)
    } else {
        nsi(2, n.saturating_sub(1), 0)
    }
}

fn of_processing(i: Processing) -> Sums
    ensures { (m : ℕ) → result ≡ sums_of (Instruction.Processing i) m }
{
    with_refills(processing_sums(i), processing_stores(i))
}

fn of_single(i: Single) -> Sums
    ensures { (m : ℕ) → result ≡ sums_of (Instruction.Single i) m }
{
    with_refills(single_sums(i), single_stores(i))
}

fn of_block(i: Block) -> Sums
    ensures { (m : ℕ) → result ≡ sums_of (Instruction.Block i) m }
{
    with_refills(block_sums(i), block_stores(i))
}

// m is that of a multiply, by Rs before Rd is written.
pub fn sums_of(word: u32, m: u32) -> Sums
    ensures sums { result ≡ sums_of (read_of word) m }
    ensures short { total result < 2 ^ 33 }
{
    match reader::read(word) {
        Instruction::Processing(i) => of_processing(i),
        Instruction::Single(i) => of_single(i),
        Instruction::Block(i) => of_block(i),
        Instruction::Branch(_) => nsi(1, 2, 0),
        Instruction::Multiply(_) => nsi(0, 1, u64::from(m)),
        Instruction::Other(_) => nsi(0, 1, 0),
    }
}
