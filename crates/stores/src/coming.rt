// What the coming cycle of a core stores.
#![tactic(auto, unfolding(crate::specs::Writes::left, crate::specs::Writes::width))]

ghost use Rattle.std.specs.Prelude.{◌≡◌, List, ℕ};
ghost use Rattle.word.specs.Reader.{read_of};
ghost use Rattle.cycle.specs.Machine.{machine};
ghost use Rattle.stores.specs.Writes.{left, width, place};
ghost use Rattle.stores.specs.Coming.{coming, stores_in};

use crate::Write;
use cycle::Control;
use steps::Phase;
use transfer::named::count;
use word::{Instruction, reader};

// How many stores are left in step k + 2 of a word.
fn left(word: u32, k: u32) -> u32
    ensures { result ≡ left (read_of word) k }
{
    match reader::read(word) {
        Instruction::Single(i) => u32::from(!i.l),
        Instruction::Block(i) => {
            if i.l {
                0
            } else {
                count(i.list).saturating_sub(k)
            }
        }
        _ => 0,
    }
}

// The bytes of each.
fn width(word: u32) -> u32
    ensures { result ≡ width (read_of word) }
{
    match reader::read(word) {
        Instruction::Single(i) if i.b => 1,
        _ => 4,
    }
}

// A word's address has its low two bits cleared.
pub fn place(bytes: u32, address: u32) -> u32
    ensures { result ≡ place bytes address }
{
    if bytes == 1 { address } else { address / 4 * 4 }
}

const NOTHING: Write = Write {
    bytes: 0,
    address: 0,
};

fn stores_in(word: u32, k: u32, address: u32) -> Write
    ensures { result ≡ stores_in (read_of word) k address }
{
    if left(word, k) == 0 {
        return NOTHING;
    }
    let bytes = width(word);
    Write {
        bytes,
        address: place(bytes, address),
    }
}

// It goes by the phase, the word in IX and the address latch alone.
#[tactic(auto, unfolding(crate::specs::Coming::coming))]
pub fn coming(c: Control) -> Write
    ensures { (g mem : List ℕ) → result ≡ coming (machine g c mem) }
{
    match (c.phase, c.pipe.ix) {
        (Phase::Later(k), Some(word)) => stores_in(word, k, c.latches.address),
        _ => NOTHING,
    }
}
