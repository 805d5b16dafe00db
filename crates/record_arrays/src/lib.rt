// A word's record as an array of words that a caller of C owns, and back.
#![tactic(auto)]

mod operand;
pub mod packing;
pub mod standing;
pub mod unpacking;

pub type RecordArray = [u32; 16];

// An operand's kind and fields as four words.
#[derive(Clone, Copy)]
pub struct Quad {
    pub kind: u32,
    pub first: u32,
    pub second: u32,
    pub third: u32,
}
