// The watched run, in pieces: each piece's stores are folded and handed on before the next.
ghost use Rattle.std.specs.Prelude.{◌≤◌};
ghost use Rattle.plain.specs.Told.{ran_to};
ghost use Rattle.cycle.specs.Machine.{machine};
ghost use Rattle.rate.specs.Request.{most_cycles};
ghost use Rattle.rate.specs.Heard.{Heard};
ghost use Rattle.rate.specs.Folds.{Limits, Counted, into_window, Ends};

use crate::folds::take;
use crate::{Listener, Request};
use cycle::Control;
use link::summaries::summed;
use link::{Buffer, Store, Summary, Window};
use plain::Ran;
use watch::run::watch_from;

// Where a watched run came to, and what its stores fold to.
#[derive(Clone, Copy)]
pub struct Went {
    pub ran: Ran<Control>,
    pub summary: Summary,
    pub buffers: [Buffer; 32],
}

// The most cycles of a piece, of which each stores once at most.
const PIECE: u64 = 4096;

pub fn watched<L: Listener>(
    r: &Request,
    c: Control,
    registers: &mut [u32; 15],
    image: &mut [u8],
    listener: &mut L,
) -> Went
    requires limits { Limits r.now }
    requires cycles { r.now.cycles ≤ most_cycles }
    requires counted { Counted 0 c }
    ensures ends { Ends r.now (machine registers.old c image.old) (ran_to (λ d. machine registers.new d image.new) result.ran) result.summary result.buffers }
    ensures heard { Heard L.hears listener.old result.ran.used (into_window r.now (machine registers.old c image.old) result.ran.used) listener.new }
{
    let window = Window {
        from: r.from,
        to: r.to,
    };
    let mut at = c;
    let mut used: u64 = 0;
    let mut summary = Summary::default();
    let mut buffers = [Buffer::default(); 32];
    let mut found = [Store::default(); 4096];
    while used < r.cycles {
        let budget = (r.cycles - used).min(PIECE);
        let piece = watch_from(at, registers, image, budget, window, &mut found);
        let told = &found[..piece.told];
        at = piece.ran.machine;
        used += piece.ran.used;
        summary = summed(summary, told);
        take(r, &mut buffers, told);
        listener.hear(told, used);
        if piece.ran.stop.is_some() {
            let ran = Ran {
                stop: piece.ran.stop,
                used,
                machine: at,
            };
            return Went {
                ran,
                summary,
                buffers,
            };
        }
    }
    let ran = Ran {
        stop: None,
        used,
        machine: at,
    };
    Went {
        ran,
        summary,
        buffers,
    }
}
