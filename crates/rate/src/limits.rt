// What of a request is refused.
ghost use Rattle.std.specs.Prelude.{◌≡◌};
ghost use Rattle.rate.specs.Request.{within, next, rises, good_options, refused};

use crate::{Refusal, Request};
use link::Window;
use link::windows::bad_window;
use memory::length::length_is_bad;

pub const MOST_CLOCK: u64 = 1000000000;

pub const MOST_KILOBITS: u32 = 10000000;

pub const MOST_OPTIONS: usize = 32;

pub const MOST_WORDS: u64 = 1048576;

pub const MOST_CYCLES: u64 = 500000000;

// From 1.
fn within(most: u64, n: u64) -> bool
    ensures { result ≡ within most n }
{
    1 <= n && n <= most
}

// Above the last one, and not above the most.
fn next(last: u32, option: u32) -> bool
    ensures { result ≡ next last option }
{
    last < option && option <= MOST_KILOBITS
}

// Each above the one before.
fn rises(options: &[u32]) -> bool
    ensures { result ≡ rises 0 options.now }
{
    let mut last: u32 = 0;
    for option in options {
        if !next(last, *option) {
            return false;
        }
        last = *option;
    }
    true
}

fn good_options(r: &Request) -> bool
    ensures { result ≡ good_options r.now }
{
    if !within(MOST_OPTIONS as u64, r.count as u64) {
        return false;
    }
    rises(&r.options[..r.count])
}

// Of a request on an image of so many bytes.
#[tactic(auto, unfolding(crate::specs::Request::refused))]
pub fn refused(r: &Request, length: usize) -> Option<Refusal>
    ensures { result ≡ refused r.now length }
{
    let window = Window {
        from: r.from,
        to: r.to,
    };
    if length_is_bad(length) {
        return Some(Refusal::Length);
    }
    if bad_window(window, length) {
        return Some(Refusal::Window);
    }
    if !within(MOST_CLOCK, r.clock) {
        return Some(Refusal::Clock);
    }
    if !good_options(r) {
        return Some(Refusal::Options);
    }
    if !within(MOST_WORDS, r.words) {
        return Some(Refusal::Buffer);
    }
    if !within(MOST_CYCLES, r.cycles) {
        return Some(Refusal::Cycles);
    }
    None
}
