// A core as an array of words that a caller of C owns, and back.
#![tactic(auto)]

pub mod counts;
mod fetched;
pub mod packing;
mod phases;
pub mod unpacking;

pub type CoreArray = [u32; 39];
