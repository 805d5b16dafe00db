// Lent bytes as words and bytes, at a place in them. Every place is taken: one outside reads as 0, and a write there does nothing.
ghost use Rattle.std.specs.Prelude.{◌≡◌};
ghost use Rattle.memory.specs.Bytes.{word_base, holds_word, word_in, with_word, byte_in, with_byte};

// Where the word of a place begins.
pub fn word_base(place: u32) -> u32
    ensures { result ≡ word_base place }
{
    place / 4 * 4
}

// The one bounds test of a word.
#[tactic(auto, unfolding(crate::specs::Bytes::holds_word))]
fn holds_word(memory: &[u8], place: u32) -> bool
    ensures { result ≡ holds_word memory.now place }
{
    word_base(place) as usize + 3 < memory.len()
}

// The whole word of a place; 0 outside.
#[tactic(auto, using(crate::proofs::FourBytes::four_inside, crate::proofs::ByteLaws::read_held, crate::proofs::ByteLaws::read_out))]
pub fn word_in(memory: &[u8], place: u32) -> u32
    ensures { result ≡ word_in memory.now place }
{
    if holds_word(memory, place) {
        let at = word_base(place) as usize;
        u32::from_le_bytes([memory[at], memory[at + 1], memory[at + 2], memory[at + 3]])
    } else {
        0
    }
}

#[tactic(auto, using(crate::proofs::FourBytes::four_inside, crate::proofs::FourBytes::word_over, crate::proofs::FourBytes::not_written))]
pub fn put_word(memory: &mut [u8], place: u32, value: u32)
    ensures { memory.new ≡ with_word memory.old place value }
{
    if holds_word(memory, place) {
        let at = word_base(place) as usize;
        memory[at..at + 4].copy_from_slice(&value.to_le_bytes());
    }
}

#[tactic(auto, unfolding(crate::specs::Bytes::byte_in))]
pub fn byte_in(memory: &[u8], place: u32) -> u32
    ensures { result ≡ byte_in memory.now place }
{
    match memory.get(place as usize) {
        Some(byte) => u32::from(*byte),
        None => 0,
    }
}

// The low byte of a value, stored.
#[tactic(auto, unfolding(crate::specs::Bytes::with_byte))]
pub fn put_byte(memory: &mut [u8], place: u32, value: u32)
    ensures { memory.new ≡ with_byte memory.old place value }
{
    let at = place as usize;
    if at < memory.len() {
        memory[at] = (value % 256) as u8;
    }
}
