// How far a long run is, on standard error.
use crate::grouped::grouped;
use std::io::Write;
use text::Text;

// Cycles from one line to the next.
pub const STEP: u64 = 10_000_000;

fn line(done: u64, all: u64) -> Text {
    let mut line = Text::new();
    line.literal(b"rate: ");
    grouped(&mut line, done);
    line.literal(b" of ");
    grouped(&mut line, all);
    line.literal(b" cycles\n");
    line
}

// A run goes on where nobody reads this.
pub fn tell(rt: &HostRuntime, done: u64, all: u64) {
    let _ = rt.stderr().write_all(line(done, all).as_slice());
}
