// Text and numbers on standard output.
ghost use Rattle.std.specs.Prelude.{◌≡◌};
ghost use Rattle.tokens.specs.Token.{printed};

use text::Text;

// Standard output's number.
const STDOUT: i32 = 1;

pub fn bytes(text: &[u8]) {
    io::write_all(STDOUT, text);
}

// A name and the lowest hexadecimal digits of a value, as many as asked for.
pub fn field(name: &[u8], value: u32, digits: usize) {
    let mut text = Text::new();
    text.literal(name);
    text.hex(value, digits);
    bytes(text.as_slice());
}

// A token of a line: a word behind a space.
#[tactic(auto, using(crate::proofs::Printed::put_printed))]
fn token(word: u32) -> Text
    ensures { result ≡ printed word }
{
    let mut text = Text::new();
    text.literal(b" ");
    text.hex(word, 8);
    text
}

// The next token of a line.
pub fn next(word: u32) {
    bytes(token(word).as_slice());
}

pub fn words(words: &[u32]) {
    for word in words {
        next(*word);
    }
}
