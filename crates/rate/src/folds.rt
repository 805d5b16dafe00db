// The buffers of the options, and the verdicts on them.
ghost use Rattle.std.specs.Prelude.{◌≡◌, ◌<◌, ◌≤◌, ℕ, List, length, All};
ghost use Rattle.link.specs.declared.Store.{Store};
ghost use Rattle.link.specs.Summary.{Word};
ghost use Rattle.link.specs.Fold.{Filled};
ghost use Rattle.rate.specs.Folds.{line_at, buffer_at, Limits, Rooms, Taken, More};
ghost use Rattle.rate.specs.Figures.{verdicts};

use crate::Request;
use link::buffers::{all_taken, verdict};
use link::{Buffer, Line, Store, Verdict};

fn line_at(r: &Request, k: usize) -> Line
    requires { k < length r.now.options }
    ensures { result ≡ line_at r.now k }
{
    Line {
        kilobits: u64::from(r.options[k]),
        clock: r.clock,
        words: r.words,
    }
}

// These stores more.
pub fn take(r: &Request, buffers: &mut [Buffer; 32], es: &[Store])
    requires limits { Limits r.now }
    requires words { All Word es.now }
    requires rooms { Rooms r.now buffers.old (length es.now) }
    ensures more { More r.now buffers.old es.now buffers.new }
    ensures filled { (k : ℕ) → k < r.now.count → Filled (line_at r.now k) (buffer_at buffers.new k) }
{
    for k in 0..r.count {
        buffers[k] = all_taken(line_at(r, k), buffers[k], es);
    }
}

const NO_VERDICT: Verdict = Verdict {
    backlog: 0,
    grows: false,
    overflow: 0,
    overflow_tick: 0,
};

pub fn verdicts(r: &Request, buffers: &[Buffer; 32]) -> [Verdict; 32]
    requires { Limits r.now }
    ensures { (es : List Store) → Taken r.now buffers.now es → result ≡ verdicts r.now es }
{
    let mut told = [NO_VERDICT; 32];
    for k in 0..r.count {
        told[k] = verdict(line_at(r, k), buffers[k]);
    }
    told
}
