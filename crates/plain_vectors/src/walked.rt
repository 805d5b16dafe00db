// The walk of the block at A, as a run left it: the stop that it finds, and how many registers it looked at. Both are 0 where no block is due, or one
// that breaks a rule of 23; the condition is not asked.
use memory;
use plain::Plain;
use stops::rules::block_rule;
use stops::walk::walk;
use transfer::block::lowest_address;
use word::{Block, Instruction, reader};

fn block_due(plain: Plain, memory: &[u8]) -> Option<Block> {
    if memory.len() != plain.board.size as usize {
        return None;
    }
    match reader::read(memory::fetch(memory, plain.board, plain.a)?) {
        Instruction::Block(i) if block_rule(i).is_ok() => Some(i),
        _ => None,
    }
}

pub fn at(plain: Plain, memory: &[u8]) -> [u32; 2] {
    let Some(i) = block_due(plain, memory) else {
        return [0; 2];
    };
    let first = lowest_address(i, &plain.registers);
    let found = walk(i.list, first, i.l, plain.a, plain.board);
    let stop = match found.stop {
        Ok(()) => 0,
        Err(stop) => stop.into(),
    };
    [stop, found.looked]
}
