// A walk over the named registers of a block, lowest first: the stop that it finds, and how many it looked at.
ghost use Rattle.std.specs.Prelude.{◌≡◌};
ghost use Rattle.transfer.specs.Block.{named};
ghost use Rattle.stops.specs.Numbers.{stop_number};
ghost use Rattle.stops.specs.Moves.{moves_from};
ghost use Rattle.stops.specs.Walk.{walk};
ghost use Rattle.stops.specs.Told.{walked};

use crate::reason::Stop;
use crate::span::fetched_ahead;
use memory::{Board, limit};
use transfer::named::NamedRegisters;

// What a walk hands back.
#[derive(Clone, Copy)]
pub struct Walked {
    // 24 or 25, if one is met.
    pub stop: Result<(), Stop>,
    // Up to and with the first register that meets 24, else all.
    pub looked: u32,
}

// Of a block at `a` whose lowest address is `first`.
#[tactic(auto, unfolding(crate::specs::Walk::walk))]
pub fn walk(list: u32, first: u32, load: bool, a: u32, board: Board) -> Walked
    ensures { walked result ≡ walk (moves_from (named list) first) load a board }
{
    let end = limit(board);
    let mut at = u64::from(first);
    let mut looked = 0;
    let mut fetched = false;
    for _n in NamedRegisters(list) {
        looked += 1;
        if u64::from(end) <= at {
            return Walked {
                stop: Err(Stop::OutsideMemory),
                looked,
            };
        }
        fetched |= !load & fetched_ahead(at as u32, a, board);
        at += 4;
    }
    let stop = if fetched {
        Err(Stop::FetchedWord)
    } else {
        Ok(())
    };
    Walked { stop, looked }
}

// Its stop alone. Out of line, since few blocks meet one.
#[cold]
#[inline(never)]
pub fn walk_stop(list: u32, first: u32, load: bool, a: u32, board: Board) -> Result<(), Stop>
    ensures { stop_number result ≡ (walk (moves_from (named list) first) load a board).stop }
{
    walk(list, first, load, a, board).stop
}
