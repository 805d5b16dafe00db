// What the calls of either machine share: a caller keeps the machine as an array of N words.
ghost use Rattle.std.specs.Prelude.{◌≡◌, List, ℕ};
ghost use Rattle.plain.specs.Told.{started_as};
ghost use Rattle.plain_arrays.specs.PlainArray as plain_array;
ghost use Rattle.core_arrays.specs.CoreArray as core_array;
ghost use Rattle.array_calls.specs.Calls.{begun_in, called, started};
ghost use Rattle.array_calls.specs.Kept.{ended_in};

use core_arrays::CoreArray;
use pipeline::Core;
use plain::refused::Refusal;
use plain::{Plain, Ran};
use plain_arrays::PlainArray;
use stops::reason::number;

// A machine, and the words that it stands in.
pub trait Kept<const N: usize>: Copy {
    ghost packed: { Self → List ℕ };

    fn pack(self, words: &mut [u32; N])
        ensures { words.new ≡ packed self };
}

impl Kept<19> for Plain {
    ghost packed = { plain_array.packed };

    fn pack(self, words: &mut PlainArray) {
        plain_arrays::pack(words, self);
    }
}

impl Kept<39> for Core {
    ghost packed = { core_array.packed };

    fn pack(self, words: &mut CoreArray) {
        core_arrays::packing::pack(words, self);
    }
}

// What a start answers and leaves; where it is refused, that machine is left in the array.
pub fn begin<M: Kept<N>, const N: usize>(
    words: &mut [u32; N],
    start: Result<M, Refusal>,
    refused: M,
) -> u32
    ensures { started result words.new ≡ begun_in M.packed (started_as refused start) }
{
    match start {
        Ok(fresh) => {
            fresh.pack(words);
            0
        }
        Err(refusal) => {
            refused.pack(words);
            u32::from(refusal)
        }
    }
}

// What a run answers, counts and leaves; where it is refused, the array is as it was.
pub fn end<M: Kept<N>, const N: usize>(
    words: &mut [u32; N],
    used: &mut u64,
    run: Result<Ran<M>, Refusal>,
) -> u32
    ensures { (mem : List ℕ) → called result used.new words.new mem ≡ ended_in M.packed words.old mem run }
{
    match run {
        Ok(ran) => {
            ran.machine.pack(words);
            *used = ran.used;
            number(ran.stop)
        }
        Err(refusal) => {
            *used = 0;
            refusal.into()
        }
    }
}
