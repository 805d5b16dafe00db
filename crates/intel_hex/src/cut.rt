// Where the line at a text's beginning ends, if it is a record: its count says it.
ghost use Rattle.std.specs.Prelude.{◌≡◌, ◌≤◌, true, false, length, MatchOption};
ghost use Rattle.intel_hex.specs.Walk.{begins, count_at, end_at, Cut};

use crate::digits::decode;

// Digit pairs of a record beside its data: the count, two of the address, the type, the sum.
const BESIDE_DATA: usize = 5;

// A line as far as its count tells of it: how many bytes it has, and how many with its end.
#[derive(Clone, Copy)]
pub struct Line {
    pub count: u8,
    pub length: usize,
    pub whole: usize,
}

#[tactic(auto, unfolding(crate::specs::Walk::begins))]
fn count_of(text: &[u8]) -> Option<u8>
    ensures { MatchOption result (begins text.now ≡ false) (λ count. (begins text.now ≡ true) × (count ≡ count_at text.now)) }
{
    if text.len() < 3 || text[0] != b':' {
        return None;
    }
    let mut count = [0u8; 1];
    decode(&text[1..3], &mut count)?;
    Some(count[0])
}

// How many bytes the end of a line has; none where the line goes on.
#[tactic(auto, unfolding(crate::specs::Walk::end_at))]
fn end_of(left: &[u8]) -> Option<usize>
    ensures { MatchOption result (end_at left.now ≡ 3) (λ n. (end_at left.now ≡ n) × (n ≤ 2) × (n ≤ length left.now)) }
{
    match left {
        [] => Some(0),
        [b'\n', ..] => Some(1),
        [b'\r', b'\n', ..] => Some(2),
        _ => None,
    }
}

pub fn cut(text: &[u8]) -> Option<Line>
    ensures { Cut text.now result }
{
    let Some(count) = count_of(text) else {
        return None;
    };
    let length = 1 + 2 * (count as usize + BESIDE_DATA);
    if text.len() < length {
        return None;
    }
    let Some(end) = end_of(&text[length..]) else {
        return None;
    };
    Some(Line {
        count,
        length,
        whole: length + end,
    })
}
