// Reads images from standard input as cases and prints the report of each.
#![tactic(auto)]

use tokens::{buffer, print, token};

fn main() {
    tokens::each_case(|| case());
}

// A case: `length k`, then k words of the image. Its report is followed by a line that ends it. Answers whether there was one.
fn case() -> bool {
    let Some(head) = token::read::<2>() else {
        return false;
    };
    let [length, words] = head;
    let mut memory = [0; buffer::BYTES];
    let length = buffer::bytes(&memory, length);
    let image = &mut memory[..length];
    buffer::read_words(image, words);
    report::print(image);
    print::bytes(b"--\n");
    true
}
