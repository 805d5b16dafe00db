// Reads cases of the core from standard input, a start or a record with calls on it, and prints what each call answers and the state that they leave.
#![tactic(auto)]

mod call;
mod case;

fn main() {
    tokens::each_case(|| case::report());
}
