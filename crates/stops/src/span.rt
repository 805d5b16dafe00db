// Addresses that are moved: whether one is in a word fetched ahead; of n from a first one, 4 apart, whether one lies outside memory, or in a given word.
ghost use Rattle.std.specs.Prelude.{◌≡◌, ◌||◌};
ghost use Rattle.datapath.specs.Counter.{ahead};
ghost use Rattle.stops.specs.Moves.{span};
ghost use Rattle.stops.specs.Walk.{same_word, fetched_ahead};
ghost use Rattle.stops.specs.Stops.{outside, hits};

use datapath::counter::ahead;
use memory::{Board, limit, place};

fn same_word(at: u32, b: u32, board: Board) -> bool
    ensures { result ≡ same_word at b board }
{
    place(board, at) / 4 == place(board, b) / 4
}

pub fn fetched_ahead(at: u32, a: u32, board: Board) -> bool
    ensures { result ≡ fetched_ahead at a board }
{
    same_word(at, ahead(a, 4), board) | same_word(at, ahead(a, 8), board)
}

// The last address is the only one to test.
#[tactic(auto, using(crate::proofs::Spans::last_decides))]
pub fn outside(first: u32, n: u32, board: Board) -> bool
    ensures { result ≡ outside (span n first) board }
{
    n != 0 && u64::from(limit(board)) <= u64::from(first) + 4 * (u64::from(n) - 1)
}

#[tactic(auto, using(crate::proofs::Spans::between, crate::proofs::Spans::before))]
pub fn hits(first: u32, n: u32, b: u32, board: Board) -> bool
    ensures { result ≡ hits (span n first) b board }
{
    first / 4 <= b / 4 && b / 4 - first / 4 < n
}
