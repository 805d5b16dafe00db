// A token of input: a word as eight hexadecimal digits, and a byte that ends it.
ghost use Rattle.std.specs.Prelude.{◌≡◌, ◌≤◌, ◌%◌};
ghost use Rattle.text.specs.Digit.{value_of};
ghost use Rattle.tokens.specs.Token.{pair_of, word_of};

use text::digit::value_of;

// Standard input's number.
const STDIN: i32 = 0;

// The next words of the input; nothing where it ends before it has so many.
pub fn read<const N: usize>() -> Option<[u32; N]> {
    let mut words = [0; N];
    fill(&mut words).then_some(words)
}

// The next words of the input; those that it lacks where it ends are 0.
pub fn read_padded<const N: usize>() -> [u32; N] {
    let mut words = [0; N];
    fill(&mut words);
    words
}

// Puts the next words of the input into these places. Answers whether there were so many.
fn fill(words: &mut [u32]) -> bool {
    for place in words {
        let Some(word) = next() else {
            return false;
        };
        *place = word;
    }
    true
}

// The next word of the input; nothing where it ends.
pub fn next() -> Option<u32> {
    let mut text = [0; 9];
    if io::read_full(STDIN, &mut text) < text.len() {
        return None;
    }
    Some(word(&text))
}

#[tactic(auto, unfolding(crate::specs::Token::word_of))]
fn word(text: &[u8; 9]) -> u32
    ensures { result ≡ word_of text.now }
{
    u32::from_be_bytes([
        pair(text[0], text[1]),
        pair(text[2], text[3]),
        pair(text[4], text[5]),
        pair(text[6], text[7]),
    ])
}

fn pair(high: u8, low: u8) -> u8
    ensures value { result ≡ pair_of high low }
    ensures upper_bound { result ≤ 255 }
{
    digit(high) * 16 + digit(low)
}

// A byte that is no digit counts as 0.
fn digit(byte: u8) -> u8
    ensures value { result ≡ value_of byte % 16 }
    ensures upper_bound { result ≤ 15 }
{
    value_of(byte) % 16
}
