// From an array to the core that it stands for.
ghost use Rattle.std.specs.Prelude.{◌≡◌};
ghost use Rattle.core_arrays.specs.CoreArray.{control_of, unpacked, stands_for_core, length_in};

use crate::CoreArray;
use crate::counts::joined;
use crate::fetched::{fetched_of, stands_for_fetched};
use crate::phases::phase_of;
use arrays::registers_of;
use cycle::{Control, Counts, Pipe};
use memory::Board;
use pipeline::Core;
use semantics::Sums;
use steps::Latches;

fn control_of(words: &CoreArray) -> Control
    ensures { result ≡ control_of words.now }
{
    Control {
        flags: words[16],
        pipe: Pipe {
            pc: words[15],
            ir1: fetched_of(words[17], words[18]),
            ir2: fetched_of(words[19], words[20]),
            ix: fetched_of(words[21], words[22]),
        },
        phase: phase_of(words[23]),
        latches: Latches {
            address: words[24],
            datum: words[25],
            base: words[26],
        },
        counts: Counts {
            cycles: joined(words[27], words[28]),
            retired: joined(words[29], words[30]),
            sums: Sums {
                n: joined(words[33], words[34]),
                s: joined(words[35], words[36]),
                i: joined(words[37], words[38]),
            },
        },
        stop: words[31],
        board: Board {
            size: length_in(words),
        },
    }
}

#[tactic(auto, unfolding(crate::specs::CoreArray::unpacked))]
pub fn unpacked(words: &CoreArray) -> Core
    ensures { result ≡ unpacked words.now }
{
    Core {
        registers: registers_of(words),
        control: control_of(words),
    }
}

#[tactic(auto, unfolding(crate::specs::CoreArray::stands_for_core))]
pub fn stands_for_core(words: &CoreArray) -> bool
    ensures { result ≡ stands_for_core words.now }
{
    stands_for_fetched(words[17], words[18])
        && stands_for_fetched(words[19], words[20])
        && stands_for_fetched(words[21], words[22])
}

// The length of the memory that the core was started on.
pub fn length_in(words: &CoreArray) -> u32
    ensures { result ≡ length_in words.now }
{
    words[32]
}
