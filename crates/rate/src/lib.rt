// The rate: the whole answer of an image's run that is watched on a link window, and the texts of its figures.
#![tactic(auto)]

pub mod answer;
mod choice;
mod folds;
pub mod levels;
mod limits;
mod lines;
pub mod run;
pub mod texts;
pub mod told;

ghost use Rattle.std.specs.Prelude.{ℕ, List};
ghost use Rattle.link.specs.declared.Store.{Store};

use link::{Store, Summary, Verdict};

// What is asked: the link window's byte addresses [from, to), the ticks of a second, the first `count` of the options in kb/s, the buffer's words, the
// most cycles, and the one address at which a stop is accepted.
#[derive(Clone, Copy)]
pub struct Request {
    pub from: u32,
    pub to: u32,
    pub clock: u64,
    pub options: [u32; 32],
    pub count: usize,
    pub words: u64,
    pub cycles: u64,
    pub end: Option<u32>,
}

// Why there are no figures.
#[derive(Clone, Copy, PartialEq, Eq, Debug)]
pub enum Refusal {
    // Of the image.
    Length,
    Window,
    Clock,
    Options,
    Buffer,
    Cycles,
    // A stop that is not accepted, where, and after how many cycles.
    Stopped {
        stop: u32,
        address: u32,
        cycles: u64,
    },
    // Fewer than two.
    Stores {
        stores: u64,
    },
}

// What is told. `end` is 0 where the cycles were spent; the rate is in tenths of a kb/s; of the verdicts the first are those on the options.
#[derive(Clone, Copy)]
pub struct Figures {
    pub size: usize,
    pub end: u32,
    pub end_address: u32,
    pub end_word: Option<u32>,
    pub cycles: u64,
    pub ticks: u64,
    pub summary: Summary,
    pub rate: u64,
    pub verdicts: [Verdict; 32],
    pub choice: Option<u32>,
}

// Who is told of the run as it goes, piece by piece.
pub trait Listener {
    // From what it was to what it is, by the stores of a piece and the cycles done by its end.
    ghost hears: { Self → List Store → ℕ → Self → Type 0 } = { λ _ _ _ _. Unit {0} };

    fn hear(&mut self, stores: &[Store], cycles: u64)
        ensures { hears self.old stores.now cycles self.new };
}
