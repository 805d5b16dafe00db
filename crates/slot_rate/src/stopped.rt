// What is said of a run that has no figures.
use crate::refusal::{Detail, Refusal};

// A stop that is not accepted, and the one address at which one would be.
#[derive(Clone, Copy)]
pub struct Stop {
    pub stop: u32,
    pub address: u32,
    pub cycles: u64,
    pub end: Option<u32>,
}

// Of a stop, in a few words.
pub fn meaning(stop: u32) -> &'static str {
    match stop {
        21 => "outside memory",
        22 => "a SWI, or an instruction that the core has not",
        23 => "a form that the rules forbid",
        24 => "a load or store outside memory",
        25 => "a store to a word that is fetched already",
        _ => "a stop",
    }
}

// What the arguments refuse comes up before a run.
fn what(refusal: rate::Refusal) -> &'static str {
    match refusal {
        rate::Refusal::Length => "an image has 16 to 65,536 bytes, a multiple of 4",
        rate::Refusal::Window => "--link is no window of this memory",
        rate::Refusal::Clock => "--clock is outside its limits",
        rate::Refusal::Options => "--options are outside their limits, or do not rise",
        rate::Refusal::Buffer => "--buffer is outside its limits",
        rate::Refusal::Cycles => "--cycles is outside its limits",
        rate::Refusal::Stopped { .. } => "the program stopped with ",
        rate::Refusal::Stores { .. } => "fewer than two stores went to the link window: ",
    }
}

fn detail(refusal: rate::Refusal, end: Option<u32>, ran: u64) -> Detail {
    match refusal {
        rate::Refusal::Stopped {
            stop,
            address,
            cycles,
        } => Detail::Stop(Stop {
            stop,
            address,
            cycles,
            end,
        }),
        rate::Refusal::Stores { stores } => Detail::Stores {
            stores,
            cycles: ran,
        },
        _ => Detail::Nothing,
    }
}

// Of a run of so many cycles.
pub fn refused<'a>(refusal: rate::Refusal, end: Option<u32>, ran: u64) -> Refusal<'a> {
    Refusal::words(what(refusal)).with(detail(refusal, end, ran))
}
