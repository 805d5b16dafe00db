// What a step leaves, and how it ends.
ghost use Rattle.std.specs.Prelude.{◌≡◌};
ghost use Rattle.steps.specs.declared.Phase.TheVariants.{Later};
ghost use Rattle.steps.specs.declared.After.TheVariants.{More};
ghost use Rattle.steps.specs.Steps.{latches, step, still, ends};

use crate::{After, Ended, Latches, Phase, Step};
use registers::Outcome;

fn ends(goes: Option<u32>) -> After
    ensures { result ≡ ends goes }
{
    match goes {
        None => After::Done(Ended::Executed(0)),
        Some(word) => After::Jump(word),
    }
}

// A step that leaves nothing in the latches.
pub fn still(flags: u32, after: After) -> Step
    ensures { result ≡ still flags after }
{
    Step {
        flags,
        latches: Latches::default(),
        after,
    }
}

// The last own step.
pub fn last(t: Outcome) -> Step
    ensures { result ≡ still t.flags (ends t.goes) }
{
    still(t.flags, ends(t.goes))
}

// The instruction goes on with step k + 2.
pub fn on(flags: u32, latches: Latches, k: u32) -> Step
    ensures { result ≡ step flags latches (More (Later k)) }
{
    Step {
        flags,
        latches,
        after: After::More(Phase::Later(k)),
    }
}
