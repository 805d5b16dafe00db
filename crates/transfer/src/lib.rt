// Single and block transfers: addresses, bases, and what is moved.
#![tactic(auto)]

pub mod block;
pub mod named;
pub mod single;

// Where a single transfer goes: its changed base, and its address.
#[derive(Clone, Copy)]
pub struct Reach {
    pub base: u32,
    pub address: u32,
}
