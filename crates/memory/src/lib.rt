// Memory as a board answers: what is fetched, read and written at an address, over a lent slice. Every address is taken: one
// outside reads as 0 or blank, and a write there does nothing.
#![tactic(auto)]

ghost use Rattle.std.specs.Prelude.{◌≡◌};
ghost use Rattle.memory.specs.Memory.{memory_of, place, limit, read_word, write_word, read_byte, write_byte, word_at};

pub mod bytes;
pub mod length;

// What the memory is built into: its size in bytes.
#[derive(Clone, Copy)]
pub struct Board {
    pub size: u32,
}

// Where an address lies in the lent bytes.
#[tactic(auto, unfolding(crate::specs::Memory::place))]
pub fn place(board: Board, address: u32) -> u32
    ensures { result ≡ place board address }
{
    address
}

// The first address at which nothing answers.
#[tactic(auto, unfolding(crate::specs::Memory::limit))]
pub fn limit(board: Board) -> u32
    ensures { result ≡ limit board }
{
    board.size
}

pub fn read_word(memory: &[u8], board: Board, address: u32) -> u32
    ensures { result ≡ read_word (memory_of board memory.now) address }
{
    bytes::word_in(memory, place(board, address))
}

pub fn write_word(memory: &mut [u8], board: Board, address: u32, value: u32)
    ensures { memory_of board memory.new ≡ write_word (memory_of board memory.old) address value }
{
    bytes::put_word(memory, place(board, address), value);
}

pub fn read_byte(memory: &[u8], board: Board, address: u32) -> u32
    ensures { result ≡ read_byte (memory_of board memory.now) address }
{
    bytes::byte_in(memory, place(board, address))
}

pub fn write_byte(memory: &mut [u8], board: Board, address: u32, value: u32)
    ensures { memory_of board memory.new ≡ write_byte (memory_of board memory.old) address value }
{
    bytes::put_byte(memory, place(board, address), value);
}

// The word that a fetch gives; none, a blank, outside.
#[tactic(auto, unfolding(crate::specs::Memory::word_at))]
pub fn fetch(memory: &[u8], board: Board, address: u32) -> Option<u32>
    ensures { result ≡ word_at (memory_of board memory.now) address }
{
    if address < limit(board) {
        Some(read_word(memory, board, address))
    } else {
        None
    }
}
