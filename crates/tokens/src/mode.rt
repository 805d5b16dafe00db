// How a case begins.
ghost use Rattle.std.specs.Prelude.{◌≡◌};
ghost use Rattle.tokens.specs.Mode.{mode_of};

#[derive(Clone, Copy)]
pub enum Mode {
    // A start.
    Start,
    // A record that is taken as it is given.
    Take,
}

impl From<u32> for Mode {
    ghost from_gives = { λ number mode. mode ≡ mode_of number };

    fn from(number: u32) -> Mode {
        match number {
            0 => Mode::Start,
            _ => Mode::Take,
        }
    }
}
