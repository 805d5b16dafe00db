// A summary of stores as an array of words that a caller of C owns, and back.
#![tactic(auto)]

pub mod packing;
pub mod unpacking;

pub type SummaryArray = [u32; 22];
