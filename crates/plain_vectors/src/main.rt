// Reads cases of the plain machine from standard input and prints the whole state that each leaves, and the walk of the block that is due then.
#![tactic(auto)]

mod case;
mod state;
mod walked;

fn main() {
    tokens::each_case(|| case::report());
}
