// Text of at most 512 bytes, put together piece by piece. What does not fit is left out, so that callers owe no proof of
// room; and it needs no heap, so that no text fails for want of memory.
#![tactic(auto)]

pub mod digit;

ghost use Rattle.std.specs.Prelude.{◌≡◌, ℕ, ◌≤◌, List, [], take};
ghost use Rattle.text.specs.Text.{hex_digits, decimal};
ghost use Rattle.text.specs.Output.{put_byte, put};

use std::marker::Model;

#[derive(Drop)]
pub struct Text {
    bytes: [u8; 512],
    end: usize,
}

// Clauses see the bytes that were put.
impl Model for Text {
    ghost Value = { List ℕ };

    ghost view = { λ text. take text.end text.bytes };

    ghost invariant = { λ text. text.end ≤ 512 };
}

impl Text {
    pub fn new() -> Text
        ensures { result ≡ [] }
    {
        Text {
            bytes: [0; 512],
            end: 0,
        }
    }

    pub fn as_slice(&self) -> &[u8]
        ensures { result.now ≡ self.now }
    {
        &self.bytes[..self.end]
    }

    #[tactic(auto, using(crate::proofs::Put::stores))]
    fn push(&mut self, byte: u8)
        ensures { self.new ≡ put_byte self.old byte }
    {
        if self.end < self.bytes.len() {
            self.bytes[self.end] = byte;
            self.end += 1;
        }
    }

    #[tactic(auto, using(crate::proofs::Put::puts))]
    pub fn literal(&mut self, piece: &[u8])
        ensures { self.new ≡ put self.old piece.now }
    {
        for byte in piece {
            self.push(*byte);
        }
    }

    // The lowest digits of n, as many as asked for.
    #[tactic(auto, using(crate::proofs::Digits::digits))]
    pub fn hex(&mut self, n: u32, digits: usize)
        ensures { self.new ≡ put self.old (hex_digits digits n) }
    {
        if digits > 0 {
            self.hex(n / 16, digits - 1);
            self.push(digit::byte_of(n));
        }
    }

    #[tactic(auto, using(crate::proofs::Digits::digits))]
    pub fn decimal(&mut self, n: u64)
        ensures { self.new ≡ put self.old (decimal n) }
    {
        if n >= 10 {
            self.decimal(n / 10);
        }
        self.push(digit::byte_of((n % 10) as u32));
    }
}
