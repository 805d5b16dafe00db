// What the calls on arrays share: a machine as the words that a caller keeps, what its array refuses with, and what each call answers and leaves.
#![tactic(auto)]

pub mod kept;
pub mod refusal;
