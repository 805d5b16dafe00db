// The datapath: the shifter, the ALU, and the program counter (paper 01, "Shifts", "Operations 0-15", "R15 read").
#![tactic(auto)]

pub mod alu;
pub mod counter;
pub mod shifter;

// A value out of the shifter, and its carry out.
#[derive(Clone, Copy, PartialEq, Eq, Debug)]
pub struct Shifted {
    pub value: u32,
    pub carry: bool,
}

// A result of the ALU, and the C and V that go with it into the flags.
#[derive(Clone, Copy, PartialEq, Eq, Debug)]
pub struct Computed {
    pub value: u32,
    pub carry: bool,
    pub overflow: bool,
}
