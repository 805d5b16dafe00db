// The logarithm to base 2, in 1,024ths.

const ONE: u64 = 1024;

// The bits after the point, by squaring: `mantissa` is from 2^31 up to 2^32.
fn fraction(mantissa: u64) -> u64 {
    let mut mantissa = mantissa;
    let mut fraction = 0u64;
    for _ in 0..10 {
        mantissa = mantissa.wrapping_mul(mantissa) / 0x8000_0000;
        fraction = fraction.saturating_mul(2);
        if mantissa >= 0x1_0000_0000 {
            mantissa /= 2;
            fraction = fraction.saturating_add(1);
        }
    }
    fraction
}

pub fn floor(n: u64) -> u32 {
    63u32.saturating_sub(n.leading_zeros())
}

// 0 counts as a half, so that it has a place of its own below 1; the result is one octave more than the logarithm.
pub fn octaves(n: u64) -> u64 {
    if n == 0 {
        return 0;
    }
    let octave = floor(n);
    let mantissa = if octave < 31 {
        n.wrapping_shl(31u32.saturating_sub(octave))
    } else {
        n.wrapping_shr(octave.saturating_sub(31))
    };
    u64::from(octave)
        .saturating_add(1)
        .saturating_mul(ONE)
        .saturating_add(fraction(mantissa))
}
