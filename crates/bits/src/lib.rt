// Bits and fields of a word, shared by the reader and the datapath. Every place and width is taken.
#![tactic(auto)]

ghost use Rattle.std.specs.Prelude.{◌≡◌, ◌/◌, ◌%◌, ◌^◌};
ghost use Rattle.bits.specs.Bits.{field, bit, num};

// Moved right: from 32 places on nothing is left.
fn moved(word: u32, places: u32) -> u32
    ensures { result ≡ word / 2 ^ places }
{
    word.checked_shr(places).unwrap_or(0)
}

// The low bits of a word: from 32 on all of it.
fn lowest(word: u32, width: u32) -> u32
    ensures { result ≡ word % 2 ^ width }
{
    if width < 32 {
        word % (1 << width)
    } else {
        word
    }
}

// The `width` bits of a word from bit `low` on.
#[tactic(auto, unfolding(crate::specs::Bits::field))]
pub fn field(word: u32, low: u32, width: u32) -> u32
    ensures { result ≡ field word low width }
{
    lowest(moved(word, low), width)
}

#[tactic(auto, unfolding(crate::specs::Bits::bit))]
pub fn bit(word: u32, k: u32) -> bool
    ensures { result ≡ bit word k }
{
    field(word, k, 1) == 1
}

// A bit as a number.
pub fn number(b: bool) -> u32
    ensures { result ≡ num b }
{
    u32::from(b)
}
