// The text of a drawing as it grows. Where memory fails, it is short, and says so at the end.
use std::alloc::{AllocError, Global};

#[derive(Drop)]
pub struct Drawing {
    bytes: Vec<u8>,
    short: bool,
}

impl Drawing {
    pub fn new(alloc: Global) -> Drawing {
        Drawing {
            bytes: Vec::new(alloc),
            short: false,
        }
    }

    pub fn finished(self) -> Result<Vec<u8>, AllocError> {
        if self.short {
            return Err(AllocError);
        }
        Ok(self.bytes)
    }

    fn push(&mut self, byte: u8) {
        if self.bytes.push(byte).is_err() {
            self.short = true;
        }
    }

    pub fn put(&mut self, piece: &str) {
        if self.bytes.extend_from_slice(piece.as_bytes()).is_err() {
            self.short = true;
        }
    }

    // Text that came from outside.
    pub fn escaped(&mut self, text: &str) {
        for byte in text.as_bytes() {
            match *byte {
                b'<' => self.put("&lt;"),
                b'>' => self.put("&gt;"),
                b'&' => self.put("&amp;"),
                b'"' => self.put("&quot;"),
                // XML has no control characters.
                0..=31 | 127 => self.put("?"),
                _ => self.push(*byte),
            }
        }
    }

    fn digit(&mut self, n: u64) {
        self.push(b'0' + (n % 10) as u8);
    }

    pub fn decimal(&mut self, n: u64) {
        if n >= 10 {
            self.decimal(n / 10);
        }
        self.digit(n);
    }

    // In groups of three: 1,234,567.
    pub fn grouped(&mut self, n: u64) {
        if n < 1000 {
            return self.decimal(n);
        }
        self.grouped(n / 1000);
        self.put(",");
        self.digit(n / 100);
        self.digit(n / 10);
        self.digit(n);
    }

    pub fn hex(&mut self, n: u32) {
        if n >= 16 {
            self.hex(n / 16);
        }
        let digit = (n % 16) as u8;
        self.push(if digit < 10 {
            b'0' + digit
        } else {
            b'A' + (digit - 10)
        });
    }

    // A length in tenths of a pixel.
    pub fn pixels(&mut self, tenths: u64) {
        self.decimal(tenths / 10);
        if tenths % 10 > 0 {
            self.put(".");
            self.digit(tenths);
        }
    }
}
