// A plain machine's record as an array of words that a caller of C owns, and back.
#![tactic(auto)]

ghost use Rattle.std.specs.Prelude.{◌≡◌};
ghost use Rattle.plain_arrays.specs.PlainArray.{packed, unpacked};

use arrays::{put_registers, registers_of};
use memory::Board;
use plain::Plain;

pub type PlainArray = [u32; 19];

#[tactic(auto, using(crate::proofs::Filled::filled))]
pub fn pack(words: &mut PlainArray, p: Plain)
    ensures { words.new ≡ packed p }
{
    put_registers(words, p.registers);
    words[15] = p.a;
    words[16] = p.flags;
    words[17] = p.stop;
    words[18] = p.board.size;
}

#[tactic(auto, unfolding(crate::specs::PlainArray::unpacked))]
pub fn unpacked(words: &PlainArray) -> Plain
    ensures { result ≡ unpacked words.now }
{
    Plain {
        registers: registers_of(words),
        a: words[15],
        flags: words[16],
        stop: words[17],
        board: Board { size: words[18] },
    }
}
