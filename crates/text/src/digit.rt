// A hexadecimal digit: the byte of a value, and the value of a byte.
ghost use Rattle.std.specs.Prelude.{◌≡◌, ◌≤◌, ◌%◌};
ghost use Rattle.text.specs.Digit.{digit, value_of};

// The lowest digit of a number, upper case.
pub fn byte_of(n: u32) -> u8
    ensures { result ≡ digit (n % 16) }
{
    let d = (n % 16) as u8;
    if d < 10 { b'0' + d } else { b'A' + (d - 10) }
}

// Of either case; 16 for a byte that is no digit.
#[tactic(auto, unfolding(crate::specs::Digit::counted))]
pub fn value_of(byte: u8) -> u8
    ensures value { result ≡ value_of byte }
    ensures upper_bound { result ≤ 16 }
{
    match byte {
        b'0'..=b'9' => byte - b'0',
        b'A'..=b'F' => byte - b'A' + 10,
        b'a'..=b'f' => byte - b'a' + 10,
        _ => 16,
    }
}
