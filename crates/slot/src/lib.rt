// The machines as a library for C: calls on numbers and lent arrays. An array holds a core, a plain machine or a word's record.
#![tactic(auto)]

mod abi;
mod core_calls;
mod hex_calls;
mod plain_calls;
mod record_calls;
mod store_calls;
