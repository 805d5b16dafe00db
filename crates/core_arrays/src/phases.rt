// A phase as a number.
ghost use Rattle.std.specs.Prelude.{◌≡◌};
ghost use Rattle.core_arrays.specs.Phases.{phase_number, phase_of};

use steps::Phase;

// No step is so late that this wraps.
pub fn phase_number(phase: Phase) -> u32
    ensures { result ≡ phase_number phase }
{
    match phase {
        Phase::Step1 => 0,
        Phase::Refill1 => 1,
        Phase::Refill2 => 2,
        Phase::Later(k) => k.wrapping_add(3),
    }
}

pub fn phase_of(n: u32) -> Phase
    ensures { result ≡ phase_of n }
{
    match n {
        0 => Phase::Step1,
        1 => Phase::Refill1,
        2 => Phase::Refill2,
        _ => Phase::Later(n - 3),
    }
}
