// The whole answer of an image: its figures, or why there are none.
ghost use Rattle.std.specs.Prelude.{◌≡◌, ◌≤◌, ◌<◌, ◌*◌, ◌^◌, ℕ, List, length, false, replicate, Some, None};
ghost use Rattle.memory.specs.Lengths.{bad_length};
ghost use Rattle.semantics.specs.Sums.{total, ticks};
ghost use Rattle.plain.specs.Told.{ran_to};
ghost use Rattle.cycle.specs.Machine.{machine};
ghost use Rattle.link.specs.declared.Store.{Store};
ghost use Rattle.link.specs.Summary.{nothing, summed};
ghost use Rattle.link.specs.Rate.{later_bits};
ghost use Rattle.rate.specs.Request.{refused};
ghost use Rattle.rate.specs.declared.Refusal.{Refusal};
ghost use Rattle.rate.specs.Heard.{Heard};
ghost use Rattle.rate.specs.Folds.{Limits, Taken, Counted};
ghost use Rattle.rate.specs.Figures.{begun, run_of, stores_of, figures_of};
ghost use Rattle.rate.specs.Answer.{is_end, ends_well, outcome, answer, image_after};

use crate::choice::chosen;
use crate::folds::verdicts;
use crate::limits::refused;
use crate::run::{Went, watched};
use crate::{Figures, Listener, Refusal, Request};
use cycle::Control;
use cycle::fresh::fresh;
use datapath::counter::behind;
use link::summaries;
use memory::Board;
use semantics::Sums;
use stops::reason::number;

// The core from a start at 0 with zero flags, on a memory of so many bytes.
fn begun(size: usize) -> Control
    requires { bad_length size ≡ false }
    ensures start { (image : List ℕ) → length image ≡ size → machine (replicate 15 0) result image ≡ begun image }
    ensures counted { Counted 0 result }
{
    let size = size as u32;
    fresh(0, 0, Board { size })
}

fn ticks(q: Sums) -> u64
    requires { total q < 2 ^ 62 }
    ensures { result ≡ ticks q }
{
    2 * q.n + q.s + q.i
}

// Of where a run of an image of so many bytes went.
fn figures(r: &Request, size: usize, went: &Went) -> Figures
    requires limits { Limits r.now }
    requires sums { total went.now.ran.machine.counts.sums < 2 ^ 62 }
    requires bits { later_bits went.now.summary * r.now.clock < 2 ^ 64 }
    ensures { (g mem : List ℕ) (es : List Store) → went.now.summary ≡ summed nothing es → Taken r.now went.now.buffers es → result ≡ figures_of r.now size (ran_to (λ d. machine g d mem) went.now.ran) es }
{
    let control = went.ran.machine;
    let verdicts = verdicts(r, &went.buffers);
    Figures {
        size,
        end: number(went.ran.stop),
        end_address: behind(control.pipe.pc, 8),
        end_word: control.pipe.ix,
        cycles: control.counts.cycles,
        ticks: ticks(control.counts.sums),
        summary: went.summary,
        rate: summaries::rate(went.summary, r.clock),
        verdicts,
        choice: chosen(&r.options[..r.count], &verdicts),
    }
}

fn is_end(end: Option<u32>, address: u32) -> bool
    ensures { result ≡ is_end end address }
{
    match end {
        Some(end) => end == address,
        None => false,
    }
}

// The cycles were spent, or the stop is accepted.
fn ends_well(r: &Request, f: &Figures) -> bool
    ensures { result ≡ ends_well r.now f.now }
{
    f.end == 0 || is_end(r.end, f.end_address)
}

// A stop that is not accepted is told before stores that are too few.
fn outcome(r: &Request, f: Figures) -> Result<Figures, Refusal>
    ensures { result ≡ outcome r.now f }
{
    if !ends_well(r, &f) {
        return Err(Refusal::Stopped {
            stop: f.end,
            address: f.end_address,
            cycles: f.cycles,
        });
    }
    if f.summary.stores < 2 {
        return Err(Refusal::Stores {
            stores: f.summary.stores,
        });
    }
    Ok(f)
}

// The run's stores go to the listener as they come.
pub fn rate<L: Listener>(
    request: Request,
    image: &mut [u8],
    listener: &mut L,
) -> Result<Figures, Refusal>
    ensures answer { result ≡ answer request image.old }
    ensures image { image.new ≡ image_after request image.old }
    ensures heard { refused request (length image.old) ≡ None → Heard L.hears listener.old (run_of request image.old).used (stores_of request image.old) listener.new }
    ensures unheard { (x : Refusal) → refused request (length image.old) ≡ Some x → listener.new ≡ listener.old }
{
    if let Some(refusal) = refused(&request, image.len()) {
        return Err(refusal);
    }
    let size = image.len();
    let control = begun(size);
    let mut registers = [0; 15];
    let went = watched(&request, control, &mut registers, image, listener);
    outcome(&request, figures(&request, size, &went))
}
