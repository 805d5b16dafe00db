// Reads words from standard input and prints for each its record and the word that the record is written as.
#![tactic(auto)]

mod record;

fn main() {
    tokens::each_case(|| record::report());
}
