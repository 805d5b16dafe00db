// Whether an instruction stores the counter: by its word alone.
#![tactic(auto, unfolding(crate::specs::Duration::stores_counter))]

ghost use Rattle.std.specs.Prelude.{◌≡◌};
ghost use Rattle.word.specs.declared.Instruction.{Instruction};
ghost use Rattle.word.specs.Reader.{read_of};
ghost use Rattle.semantics.specs.Duration.{stores_counter};

use bits::bit;
use datapath::alu::stores_result;
use word::{Block, Instruction, Processing, Single, reader};

pub fn processing_stores(i: Processing) -> bool
    ensures { result ≡ stores_counter (Instruction.Processing i) }
{
    stores_result(i.operation) & !(i.rd < 15)
}

pub fn single_stores(i: Single) -> bool
    ensures { result ≡ stores_counter (Instruction.Single i) }
{
    i.l & !(i.rd < 15)
}

pub fn block_stores(i: Block) -> bool
    ensures { result ≡ stores_counter (Instruction.Block i) }
{
    i.l & bit(i.list, 15)
}
