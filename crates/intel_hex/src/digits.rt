// Digit pairs: the bytes that they stand for, taken in one walk.
ghost use Rattle.std.specs.Prelude.{◌≡◌, ◌*◌, length};
ghost use Rattle.intel_hex.specs.Walk.{Decoded};

use text::digit::value_of;

// Puts the bytes of pairs into memory, and answers their sum, modulo 256; none where one is no digit. That is asked after the walk: its turns
// have no branch, for digits are hard to foretell.
pub fn decode(digits: &[u8], into: &mut [u8]) -> Option<u8>
    requires { length digits.now ≡ 2 * length into.old }
    ensures { Decoded digits.now into.new result }
{
    let mut sum = 0u8;
    let mut worst = 0u8;
    for k in 0..into.len() {
        let high = value_of(digits[2 * k]);
        let low = value_of(digits[2 * k + 1]);
        let byte = high.wrapping_mul(16).wrapping_add(low);
        worst = worst.max(high).max(low);
        sum = sum.wrapping_add(byte);
        into[k] = byte;
    }
    if worst < 16 { Some(sum) } else { None }
}
