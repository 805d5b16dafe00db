// What a start or a run of the plain machine refuses; the core's start and run test the same.
ghost use Rattle.std.specs.Prelude.{◌≡◌};
ghost use Rattle.plain.specs.Refused.{refusal_number};
ghost use Rattle.plain.specs.Numbers.{bad_entry, bad_flags, start_answer, is_stop, is_counter, bad, bad_budget, refusal};

use crate::Plain;
use crate::refused::Refusal;
use datapath::counter::COUNTERS;
use memory::length::length_is_bad;
use stops::reason::Stop;

// The largest budget of a run.
pub const MOST_BUDGET: u64 = 1000000;

// 2
pub fn entry_is_bad(entry: u32, length: usize) -> bool
    ensures { result ≡ bad_entry entry length }
{
    (entry % 4 != 0) | !((entry as usize) < length)
}

// 4
pub fn flags_are_bad(flags: u32) -> bool
    ensures { result ≡ bad_flags flags }
{
    15 < flags
}

// What a start refuses with: 1, 2, 4.
#[tactic(auto, unfolding(crate::specs::Numbers::start_answer))]
pub fn start_answer(length: usize, entry: u32, flags: u32) -> Result<(), Refusal>
    ensures { refusal_number result ≡ start_answer length entry flags }
{
    if length_is_bad(length) {
        return Err(Refusal::Length);
    }
    if entry_is_bad(entry, length) {
        return Err(Refusal::Entry);
    }
    if flags_are_bad(flags) {
        Err(Refusal::Flags)
    } else {
        Ok(())
    }
}

// A stop that a record can hold.
pub fn is_stop(stop: u32) -> bool
    ensures { result ≡ is_stop stop }
{
    (stop == 0) | Stop::try_from(stop).is_ok()
}

// An address that a counter can hold.
pub fn is_counter(a: u32) -> bool
    ensures { result ≡ is_counter a }
{
    (a % 4 == 0) & (a < COUNTERS)
}

// 3
pub fn budget_is_bad(budget: u64) -> bool
    ensures { result ≡ bad_budget budget }
{
    MOST_BUDGET < budget
}

// 11
#[tactic(auto, unfolding(crate::specs::Numbers::bad))]
fn is_bad(p: Plain) -> bool
    ensures { result ≡ bad p }
{
    length_is_bad(p.board.size as usize)
        | !is_counter(p.a)
        | flags_are_bad(p.flags)
        | !is_stop(p.stop)
}

// What a run refuses with: 12, 11, 3.
#[tactic(auto, unfolding(crate::specs::Numbers::refusal))]
pub fn refusal(p: Plain, lent: usize, budget: u64) -> Result<(), Refusal>
    ensures { refusal_number result ≡ refusal p lent budget }
{
    if lent != p.board.size as usize {
        return Err(Refusal::OtherMemory);
    }
    if is_bad(p) {
        return Err(Refusal::Record);
    }
    if budget_is_bad(budget) {
        Err(Refusal::Budget)
    } else {
        Ok(())
    }
}
