// The stores as the core does them, each with its cycle and its tick, and that they are the plain machine's.
#![tactic(auto)]

pub mod coming;

// What the coming cycle of a core stores: 0, 1 or 4 bytes, and where.
#[derive(Clone, Copy)]
pub struct Write {
    pub bytes: u32,
    pub address: u32,
}
