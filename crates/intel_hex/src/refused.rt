// Why a text is not read, or a memory not written.
ghost use Rattle.std.specs.Prelude.{◌≡◌};
ghost use Rattle.intel_hex.specs.Numbers.{number_of, line_of};

#[derive(Clone, Copy, PartialEq, Eq, Debug)]
pub enum Refusal {
    // Of the memory.
    Length,
    // A line, counted from 1, that is no sound record of types 00, 01 and 04.
    Unsound { line: usize },
    // One with data beyond the memory.
    Outside { line: usize },
    // So many lines, and none an end record.
    NoEnd { lines: usize },
}

impl From<Refusal> for u32 {
    ghost from_gives = { λ refusal n. n ≡ number_of refusal };

    fn from(refusal: Refusal) -> u32 {
        match refusal {
            Refusal::Length => 1,
            Refusal::Unsound { .. } => 41,
            Refusal::Outside { .. } => 42,
            Refusal::NoEnd { .. } => 43,
        }
    }
}
