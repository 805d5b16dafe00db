// From an array to the summary that it stands for: every array stands for one.
ghost use Rattle.std.specs.Prelude.{◌≡◌};
ghost use Rattle.summary_arrays.specs.SummaryArray.{unpacked};

use crate::SummaryArray;
use core_arrays::counts::joined;
use link::{Summary, Times};

#[tactic(auto, unfolding(crate::specs::SummaryArray::unpacked))]
pub fn unpacked(words: &SummaryArray) -> Summary
    ensures { result ≡ unpacked words.now }
{
    Summary {
        stores: joined(words[0], words[1]),
        bits: joined(words[2], words[3]),
        first_bits: joined(words[4], words[5]),
        cycles: Times {
            first: joined(words[6], words[7]),
            last: joined(words[8], words[9]),
            least: joined(words[10], words[11]),
            greatest: joined(words[12], words[13]),
        },
        ticks: Times {
            first: joined(words[14], words[15]),
            last: joined(words[16], words[17]),
            least: joined(words[18], words[19]),
            greatest: joined(words[20], words[21]),
        },
    }
}
