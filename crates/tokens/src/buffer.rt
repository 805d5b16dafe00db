// The memory of a case, in a buffer that is longer than any memory that a start takes, so that a longer one can be lent.
ghost use Rattle.std.specs.Prelude.{◌≡◌, ◌/◌, min, length};
ghost use Rattle.io.specs.Counts.{IsPrefixLen};

use crate::{print, token};
use memory::bytes::put_word;

pub const BYTES: usize = 65544;

// So much of it as n bytes need.
pub fn bytes(memory: &[u8], n: u32) -> usize
    ensures prefix_len { IsPrefixLen result memory.now }
    ensures value { result ≡ min n (length memory.now) }
{
    memory.len().min(n as usize)
}

// The next k words of the input, from address 0 on. A word outside the memory is passed over; where the input ends the memory
// stays as it is.
pub fn read_words(memory: &mut [u8], k: u32) {
    for i in 0..k {
        let Some(word) = token::next() else {
            break;
        };
        if let Some(place) = i.checked_mul(4) {
            put_word(memory, place, word);
        }
    }
}

// How many words of a memory of so many bytes are printed.
fn shown(length: usize) -> usize
    ensures { result ≡ min length 256 / 4 }
{
    length.min(256) / 4
}

// The first words of a memory, as a line that a case leaves ends.
pub fn print_words(memory: &[u8]) {
    let (words, _) = memory.as_chunks();
    for word in &words[..shown(memory.len())] {
        print::next(u32::from_le_bytes(*word));
    }
}
