// What an accepted start hands back but the registers.
ghost use Rattle.std.specs.Prelude.{◌≡◌};
ghost use Rattle.cycle.specs.Fresh.{fresh_control};

use crate::{Control, Counts, Pipe};
use memory::Board;
use steps::{Latches, Phase};

pub fn fresh(flags: u32, entry: u32, board: Board) -> Control
    ensures { result ≡ fresh_control flags entry board }
{
    let pipe = Pipe {
        pc: entry,
        ..Pipe::default()
    };
    Control {
        flags,
        pipe,
        phase: Phase::Refill1,
        latches: Latches::default(),
        counts: Counts::default(),
        stop: 0,
        board,
    }
}
