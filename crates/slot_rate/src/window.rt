// The value of --link: the window's byte addresses, the second one beyond it.
ghost use Rattle.std.specs.Prelude.{◌≡◌, ◌<◌, ◌≤◌, ◌%◌};

use crate::numbers::hexadecimal;
use crate::refusal::Refusal;

const MOST_ADDRESS: u32 = 0x1_0000;

#[derive(Clone, Copy)]
pub struct Window {
    pub from: u32,
    pub to: u32,
    pub ghost from_word: { from % 4 ≡ 0 },
    pub ghost to_word: { to % 4 ≡ 0 },
    pub ghost not_empty: { from < to },
    pub ghost within: { to ≤ 65536 },
}

fn both(word: &str) -> Option<(u32, u32)> {
    let (from, to) = word.split_once('-')?;
    Some((hexadecimal(from)?, hexadecimal(to)?))
}

pub fn read_window(word: &str) -> Result<Window, Refusal<'_>> {
    let Some((from, to)) = both(word) else {
        return Err(Refusal::named(
            "--link wants FROM-TO, two hexadecimal byte addresses, and not '",
            word,
            "'",
        ));
    };
    if from % 4 != 0 || to % 4 != 0 {
        return Err(Refusal::named(
            "--link wants addresses that are multiples of 4, and not ",
            word,
            "",
        ));
    }
    if from >= to {
        return Err(Refusal::named(
            "--link ",
            word,
            " is empty or runs backwards: FROM lies below TO, which is not part of the window",
        ));
    }
    if to > MOST_ADDRESS {
        return Err(Refusal::named(
            "--link ",
            word,
            " ends beyond the longest memory, which ends at 10000",
        ));
    }
    Ok(Window { from, to })
}
