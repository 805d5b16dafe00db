// Why a start or a run is refused, by its number; the writer's is its own.
ghost use Rattle.std.specs.Prelude.{◌≡◌};
ghost use Rattle.plain.specs.Refused.{number_of};

#[derive(Clone, Copy, PartialEq, Eq, Debug)]
pub enum Refusal {
    Length = 1,
    Entry = 2,
    Budget = 3,
    Flags = 4,
    Record = 11,
    // Memory of another length is lent.
    OtherMemory = 12,
    // Of the core alone.
    TooManyCycles = 13,
}

impl From<Refusal> for u32 {
    ghost from_gives = { λ refusal n. n ≡ number_of refusal };

    fn from(refusal: Refusal) -> u32 {
        refusal as u32
    }
}
