// Images as Intel HEX: a text read into lent memory, and memory written line by line. Knows no machine.
#![tactic(auto)]

mod cut;
mod digits;
pub mod message;
pub mod reader;
mod records;
pub mod refused;
pub mod writer;
