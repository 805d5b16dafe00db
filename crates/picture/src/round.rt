// Round steps for an axis: 1, 2, or 5 and zeros.

// The round number after one.
pub fn next(step: u64) -> u64 {
    let mut unit = 1u64;
    for _ in 0..20 {
        if step / 10 >= unit {
            unit = unit.saturating_mul(10);
        }
    }
    match step / unit.max(1) {
        1 => unit.saturating_mul(2),
        2 => unit.saturating_mul(5),
        _ => unit.saturating_mul(10),
    }
}

// The least round step that goes into `length` at most `most` times.
pub fn step(length: u64, most: u64) -> u64 {
    let mut step = 1u64;
    for _ in 0..60 {
        if length / step.max(1) > most {
            step = next(step);
        }
    }
    step.max(1)
}

// The first multiple of a step from `value` on.
pub fn up(value: u64, step: u64) -> u64 {
    let over = value % step.max(1);
    if over == 0 {
        value
    } else {
        value.saturating_add(step.saturating_sub(over))
    }
}
