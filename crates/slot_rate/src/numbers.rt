// Numbers as the user writes them: digits alone.
ghost use Rattle.std.specs.Prelude.{◌≤◌, IfSome};

use text::digit::value_of;

// A number that is too large is none.
pub fn decimal(word: &str) -> Option<u64> {
    if word.is_empty() {
        return None;
    }
    let mut number = 0u64;
    for byte in word.as_bytes() {
        if !byte.is_ascii_digit() {
            return None;
        }
        number = number
            .checked_mul(10)?
            .checked_add(u64::from(byte.wrapping_sub(b'0')))?;
    }
    Some(number)
}

fn without_prefix(word: &str) -> &str {
    match word.strip_prefix("0x") {
        Some(digits) => digits,
        None => word.strip_prefix("0X").unwrap_or(word),
    }
}

// Of either case, with or without 0x.
pub fn hexadecimal(word: &str) -> Option<u32> {
    let digits = without_prefix(word);
    if digits.is_empty() {
        return None;
    }
    let mut number = 0u32;
    for byte in digits.as_bytes() {
        let digit = value_of(*byte);
        if digit > 15 {
            return None;
        }
        number = number.checked_mul(16)?.checked_add(u32::from(digit))?;
    }
    Some(number)
}

pub fn within(word: &str, least: u64, most: u64) -> Option<u64>
    ensures lower { IfSome result (λ n. least ≤ n) }
    ensures upper { IfSome result (λ n. n ≤ most) }
{
    let number = decimal(word)?;
    if number < least || number > most {
        None
    } else {
        Some(number)
    }
}
