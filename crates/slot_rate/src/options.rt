// The value of --options: rates that rise.
ghost use Rattle.std.specs.Prelude.{◌≤◌, IfOk, All};

use crate::numbers::within;
use crate::refusal::Refusal;

pub const MOST_OPTIONS: usize = 32;

// In kb/s.
const MOST_RATE: u64 = 10_000_000;

#[derive(Clone, Copy)]
pub struct Options {
    pub rates: [u32; 32],
    pub count: usize,
    pub ghost rates_to: { All (λ rate. rate ≤ 10000000) rates },
}

impl Options {
    fn last(&self) -> u32 {
        match self.count.checked_sub(1) {
            Some(last) => self.rates.get(last).copied().unwrap_or(0),
            None => 0,
        }
    }

    fn push(&mut self, rate: u32)
        requires { rate ≤ 10000000 }
    {
        if self.count < self.rates.len() {
            self.rates[self.count] = rate;
            self.count += 1;
        }
    }
}

fn rate(word: &str) -> Result<u32, Refusal<'_>>
    ensures { IfOk result (λ n. n ≤ 10000000) }
{
    if let Some(rate) = within(word, 1, MOST_RATE)
        && let Ok(rate) = u32::try_from(rate)
    {
        return Ok(rate);
    }
    Err(Refusal::named(
        "--options wants whole rates in kb/s from 1 to 10,000,000, with commas between, and not '",
        word,
        "'",
    ))
}

pub fn read_options(word: &str) -> Result<Options, Refusal<'_>> {
    let mut options = Options {
        rates: [0; 32],
        count: 0,
    };
    for part in word.split(',') {
        let rate = rate(part)?;
        if rate <= options.last() {
            return Err(Refusal::named(
                "--options wants rates that rise strictly, and ",
                part,
                " does not",
            ));
        }
        if options.count >= MOST_OPTIONS {
            return Err(Refusal::words("--options takes at most 32 rates"));
        }
        options.push(rate);
    }
    Ok(options)
}
