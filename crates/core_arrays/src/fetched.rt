// A fetched word as two words.
ghost use Rattle.std.specs.Prelude.{◌≡◌};
ghost use Rattle.core_arrays.specs.Fetched.{fetched_words, fetched_of, stands_for_fetched};

pub fn fetched_words(f: Option<u32>) -> [u32; 2]
    ensures { result ≡ fetched_words f }
{
    match f {
        Some(word) => [word, 1],
        None => [0, 0],
    }
}

pub fn fetched_of(word: u32, valid: u32) -> Option<u32>
    ensures { result ≡ fetched_of word valid }
{
    match valid {
        0 => None,
        _ => Some(word),
    }
}

pub fn stands_for_fetched(word: u32, valid: u32) -> bool
    ensures { result ≡ stands_for_fetched word valid }
{
    matches!((word, valid), (_, 1) | (0, 0))
}
