// The stops, by their numbers.
ghost use Rattle.std.specs.Prelude.{◌≡◌, ◌&&◌, MatchResult, is_ok, leb};
ghost use Rattle.stops.specs.Numbers.{no_word, fetched_word, number_of, held_number};

// Why a machine stops, by its number.
#[derive(Clone, Copy, PartialEq, Eq, Debug)]
pub enum Stop {
    // No word at A.
    NoWord = 21,
    // An Other.
    OtherWord = 22,
    BrokenRule = 23,
    // A moved address at which nothing answers.
    OutsideMemory = 24,
    // A store into a word that is fetched already.
    FetchedWord = 25,
}

impl From<Stop> for u32 {
    ghost from_gives = { λ stop n. n ≡ number_of stop };

    fn from(stop: Stop) -> u32 {
        stop as u32
    }
}

// 0 where there is none.
pub fn number(stop: Option<Stop>) -> u32
    ensures { result ≡ held_number stop }
{
    match stop {
        Some(stop) => stop.into(),
        None => 0,
    }
}

impl TryFrom<u32> for Stop {
    type Error = NoStop;

    ghost try_from_gives = { λ n r. (is_ok r ≡ (leb no_word n && leb n fetched_word)) × MatchResult r (λ stop. number_of stop ≡ n) (λ _. Unit {0}) };

    fn try_from(number: u32) -> Result<Stop, NoStop> {
        match number {
            21 => Ok(Stop::NoWord),
            22 => Ok(Stop::OtherWord),
            23 => Ok(Stop::BrokenRule),
            24 => Ok(Stop::OutsideMemory),
            25 => Ok(Stop::FetchedWord),
            _ => Err(NoStop),
        }
    }
}

// A number that no stop has.
#[derive(Clone, Copy, PartialEq, Eq, Debug)]
pub struct NoStop;
