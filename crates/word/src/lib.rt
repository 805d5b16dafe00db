// Words and records: every 32-bit word as a record of its fields.
#![tactic(auto)]

pub mod reader;

// The second operand of a data processing instruction, and the offset of a single transfer.
#[derive(Clone, Copy, PartialEq, Eq, Debug)]
pub enum Operand {
    // An eight-bit value rotated right by twice `rotate`. As an offset these are its twelve bits, unrotated.
    Constant { rotate: u32, value: u32 },
    ShiftByAmount { rm: u32, shift: u32, amount: u32 },
    // A single transfer lacks this kind.
    ShiftByRegister { rm: u32, shift: u32, rs: u32 },
}

#[derive(Clone, Copy, PartialEq, Eq, Debug)]
pub struct Processing {
    pub condition: u32,
    pub operation: u32,
    pub s: bool,
    pub rn: u32,
    pub rd: u32,
    pub operand: Operand,
}

#[derive(Clone, Copy, PartialEq, Eq, Debug)]
pub struct Single {
    pub condition: u32,
    pub p: bool,
    pub u: bool,
    pub b: bool,
    pub w: bool,
    pub l: bool,
    pub rn: u32,
    pub rd: u32,
    pub offset: Operand,
}

#[derive(Clone, Copy, PartialEq, Eq, Debug)]
pub struct Block {
    pub condition: u32,
    pub p: bool,
    pub u: bool,
    pub s: bool,
    pub w: bool,
    pub l: bool,
    pub rn: u32,
    pub list: u32,
}

#[derive(Clone, Copy, PartialEq, Eq, Debug)]
pub struct Branch {
    pub condition: u32,
    pub link: bool,
    pub offset: u32,
}

// Paper 02 §1. MUL, without accumulate, keeps its unused Rn.
#[derive(Clone, Copy, PartialEq, Eq, Debug)]
pub struct Multiply {
    pub condition: u32,
    pub accumulate: bool,
    pub s: bool,
    pub rd: u32,
    pub rn: u32,
    pub rs: u32,
    pub rm: u32,
}

// The classes of instructions; Other is what no class has.
#[derive(Clone, Copy, PartialEq, Eq, Debug)]
pub enum Class {
    Processing,
    Single,
    Block,
    Branch,
    Multiply,
    Other,
}

// One case of data for each class. `Other` carries its word, and every class keeps every bit.
#[derive(Clone, Copy, PartialEq, Eq, Debug)]
pub enum Instruction {
    Processing(Processing),
    Single(Single),
    Block(Block),
    Branch(Branch),
    Multiply(Multiply),
    Other(u32),
}
