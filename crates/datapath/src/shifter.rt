// The shifter: a value shifted, and its carry out (paper 01, "Shifts").
// It stands inlined at each of its calls, so that a caller that takes no carry has none worked out.
ghost use Rattle.std.specs.Prelude.{◌≡◌, ◌+◌, ◌*◌, ◌/◌, ◌^◌, ◌<◌, min};
ghost use Rattle.bits.specs.Bits.{num};
ghost use Rattle.datapath.specs.Shifter.{rotated, signed, lsl, lsr, asr, ror, shift_number, shift, zero_amount, by_register, by_amount, constant};

use super::Shifted;

// The kinds of shift, in the order of their numbers.
#[derive(Clone, Copy, PartialEq, Eq, Debug)]
pub enum Shift {
    Lsl,
    Lsr,
    Asr,
    Ror,
}

// Bits 6..5 of a word, as the record holds them; from 3 on ROR.
impl From<u32> for Shift {
    ghost from_gives = { λ kind shift. shift_number shift ≡ min kind 3 };

    fn from(kind: u32) -> Shift {
        match kind {
            0 => Shift::Lsl,
            1 => Shift::Lsr,
            2 => Shift::Asr,
            _ => Shift::Ror,
        }
    }
}

// Rotated right by a number of places that counts modulo 32.
#[tactic(auto, using(crate::proofs::Moved::turned_word_or), unfolding(crate::specs::Shifter::rotated))]
pub fn rotate(v: u32, n: u32) -> u32
    ensures { result ≡ rotated v n }
{
    v.rotate_right(n)
}

// Moved right, and filled with the sign.
fn signed(v: u32, n: u32) -> u32
    requires { n < 32 }
    ensures { result ≡ signed v n }
{
    (v.cast_signed() >> n).cast_unsigned()
}

#[inline(always)]
#[tactic(auto, unfolding(crate::specs::Shifter::lsl))]
fn lsl(v: u32, n: u32) -> Shifted
    ensures { result ≡ lsl v n }
{
    if n < 32 {
        Shifted {
            value: v << n,
            carry: bits::bit(v, 32 - n),
        }
    } else {
        Shifted {
            value: 0,
            carry: (n == 32) & bits::bit(v, 0),
        }
    }
}

#[inline(always)]
#[tactic(auto, unfolding(crate::specs::Shifter::lsr))]
fn lsr(v: u32, n: u32) -> Shifted
    ensures { result ≡ lsr v n }
{
    if n < 32 {
        Shifted {
            value: v >> n,
            carry: bits::bit(v, n.saturating_sub(1)),
        }
    } else {
        Shifted {
            value: 0,
            carry: (n == 32) & bits::bit(v, 31),
        }
    }
}

// From 32 on by 31 places, which leave nothing but sign.
#[inline(always)]
#[tactic(auto, using(crate::proofs::Moved::signed_whole), unfolding(crate::specs::Shifter::asr))]
fn asr(v: u32, n: u32) -> Shifted
    ensures { result ≡ asr v n }
{
    if n < 32 {
        Shifted {
            value: signed(v, n),
            carry: bits::bit(v, n.saturating_sub(1)),
        }
    } else {
        Shifted {
            value: signed(v, 31),
            carry: bits::bit(v, 31),
        }
    }
}

#[inline(always)]
#[tactic(auto, unfolding(crate::specs::Shifter::ror))]
fn ror(v: u32, n: u32) -> Shifted
    ensures { result ≡ ror v n }
{
    let value = rotate(v, n);
    Shifted {
        value,
        carry: bits::bit(value, 31),
    }
}

// By an amount of places, of a kind.
#[inline(always)]
#[tactic(auto, unfolding(crate::specs::Shifter::shift))]
fn by_kind(kind: u32, v: u32, n: u32) -> Shifted
    ensures { result ≡ shift kind v n }
{
    match Shift::from(kind) {
        Shift::Lsl => lsl(v, n),
        Shift::Lsr => lsr(v, n),
        Shift::Asr => asr(v, n),
        Shift::Ror => ror(v, n),
    }
}

// One place right, with C on top.
fn through_carry(v: u32, carry: bool) -> u32
    ensures { result ≡ v / 2 + num carry * 2 ^ 31 }
{
    v / 2 + bits::number(carry) * 0x80000000
}

// By an amount of 0 in the word.
#[inline(always)]
fn zero_amount(kind: u32, v: u32, carry: bool) -> Shifted
    ensures { result ≡ zero_amount kind v carry }
{
    match Shift::from(kind) {
        Shift::Lsl => Shifted { value: v, carry },
        Shift::Lsr => lsr(v, 32),
        Shift::Asr => asr(v, 32),
        Shift::Ror => Shifted {
            value: through_carry(v, carry),
            carry: bits::bit(v, 0),
        },
    }
}

// By the low byte of Rs.
#[inline(always)]
#[tactic(auto, unfolding(crate::specs::Shifter::by_register))]
pub fn by_register(kind: u32, v: u32, rs: u32, carry: bool) -> Shifted
    ensures { result ≡ by_register kind v rs carry }
{
    let amount = rs % 256;
    if amount == 0 {
        Shifted { value: v, carry }
    } else {
        by_kind(kind, v, amount)
    }
}

// By an amount in the word.
#[inline(always)]
#[tactic(auto, unfolding(crate::specs::Shifter::by_amount))]
pub fn by_amount(kind: u32, v: u32, amount: u32, carry: bool) -> Shifted
    ensures { result ≡ by_amount kind v amount carry }
{
    if amount == 0 {
        zero_amount(kind, v, carry)
    } else {
        by_kind(kind, v, amount)
    }
}

// A constant: rotated right by twice r, which is modulo 16 so that twice it fits for every r. By 0 it is kept, and with it C.
#[inline(always)]
#[tactic(auto, unfolding(crate::specs::Shifter::rotated, crate::specs::Shifter::ror, crate::specs::Shifter::constant))]
pub fn constant(r: u32, v: u32, carry: bool) -> Shifted
    ensures { result ≡ constant r v carry }
{
    let value = rotate(v, r % 16 * 2);
    let carry = if r == 0 { carry } else { bits::bit(value, 31) };
    Shifted { value, carry }
}
