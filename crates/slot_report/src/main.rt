// The report program: reads an image from standard input, runs it, and writes the report. The buffer is longer than any
// image, so that a longer input shows.
#![tactic(auto)]

// Standard input's number.
const STDIN: i32 = 0;

fn main() {
    let mut buffer = [0u8; 65540];
    let n = io::read_full(STDIN, &mut buffer);
    report::print(&mut buffer[..n]);
}
