// What a core's array refuses with.
ghost use Rattle.std.specs.Prelude.{◌≡◌};
ghost use Rattle.plain.specs.Refused.{refusal_number};
ghost use Rattle.array_calls.specs.Calls.{other_length, array_refusal, refusal_of};

use core_arrays::CoreArray;
use core_arrays::unpacking::{length_in, stands_for_core};
use plain::refused::Refusal;

fn other_length(lent: usize, length: u32) -> bool
    ensures { result ≡ other_length lent length }
{
    lent != length as usize
}

fn array_refusal(differs: bool, stands: bool) -> Result<(), Refusal>
    ensures { refusal_number result ≡ array_refusal differs stands }
{
    if differs {
        return Err(Refusal::OtherMemory);
    }
    if !stands {
        return Err(Refusal::Record);
    }
    Ok(())
}

// What the array refuses with before its core is called.
pub fn refusal_of(words: &CoreArray, lent: usize) -> Result<(), Refusal>
    ensures { refusal_number result ≡ refusal_of words.now lent }
{
    array_refusal(other_length(lent, length_in(words)), stands_for_core(words))
}
