// From a summary to its array.
ghost use Rattle.std.specs.Prelude.{◌≡◌};
ghost use Rattle.summary_arrays.specs.SummaryArray.{times_words, packed};

use crate::SummaryArray;
use core_arrays::counts::count_words;
use link::{Summary, Times};

fn times_words(t: Times) -> [u32; 8]
    ensures { result ≡ times_words t }
{
    let [first, first_high] = count_words(t.first);
    let [last, last_high] = count_words(t.last);
    let [least, least_high] = count_words(t.least);
    let [greatest, greatest_high] = count_words(t.greatest);
    [
        first,
        first_high,
        last,
        last_high,
        least,
        least_high,
        greatest,
        greatest_high,
    ]
}

pub fn pack(words: &mut SummaryArray, s: Summary)
    ensures { words.new ≡ packed s }
{
    words[0..2].copy_from_slice(&count_words(s.stores));
    words[2..4].copy_from_slice(&count_words(s.bits));
    words[4..6].copy_from_slice(&count_words(s.first_bits));
    words[6..14].copy_from_slice(&times_words(s.cycles));
    words[14..22].copy_from_slice(&times_words(s.ticks));
}
