// A raw image from standard input as Intel HEX on standard output. Status 1: the image is refused, and standard error says why; 2: the input
// could not be read, or the output not written.
#![tactic(auto)]

use intel_hex::message::message;
use intel_hex::writer::write;
use memory::length::MOST_BYTES;
use std::io::{self, BufWriter, Read, Write};
use std::process::ExitCode;

// A byte more than the longest image, so that a longer one shows.
const MOST: u64 = MOST_BYTES as u64 + 1;

fn run(rt: &HostRuntime) -> io::Result<ExitCode> {
    let mut image = Vec::new(rt.alloc());
    rt.stdin().take(MOST).read_to_end(&mut image)?;
    let mut out = BufWriter::new(rt.alloc(), rt.stdout())?;
    for number in 0..=u32::MAX {
        match write(image.as_slice(), number) {
            Ok(line) if line.as_slice().is_empty() => break,
            Ok(line) => out.write_all(line.as_slice())?,
            Err(refusal) => {
                rt.stderr().write_all(message(refusal).as_slice())?;
                rt.stderr().write_all(b"\n")?;
                return Ok(ExitCode::from(1));
            }
        }
    }
    out.flush()?;
    Ok(ExitCode::SUCCESS)
}

fn main(rt: HostRuntime) -> ExitCode {
    match run(&rt) {
        Ok(code) => code,
        Err(_) => ExitCode::from(2),
    }
}
