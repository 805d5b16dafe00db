// Intel HEX from standard input as a raw image on standard output. An argument is the image's length; without one it is the longest.
// Status 1: the length or the text is refused, and standard error says why; 2: the input could not be read, or the output not written.
#![tactic(auto)]

use intel_hex::message::message;
use intel_hex::reader::read;
use intel_hex::refused::Refusal;
use memory::length::{MOST_BYTES, length_is_bad};
use std::env;
use std::io::{self, Read, Write};
use std::process::ExitCode;

// A longer text is not read, so that an endless input ends. The longest image with one byte to a record takes less than a sixtieth.
const MOST_TEXT: usize = 64 * 1024 * 1024;

// The length asked for; nothing where it is no length of a memory.
fn asked(rt: &HostRuntime) -> io::Result<Option<usize>> {
    let Some(argument) = env::args(rt)?.nth(1) else {
        return Ok(Some(MOST_BYTES));
    };
    match argument.as_str().parse::<u32>() {
        Ok(length) if !length_is_bad(length as usize) => Ok(Some(length as usize)),
        _ => Ok(None),
    }
}

fn refuse(rt: &HostRuntime, refusal: Refusal) -> io::Result<ExitCode> {
    rt.stderr().write_all(message(refusal).as_slice())?;
    rt.stderr().write_all(b"\n")?;
    Ok(ExitCode::from(1))
}

fn run(rt: &HostRuntime) -> io::Result<ExitCode> {
    let Some(length) = asked(rt)? else {
        return refuse(rt, Refusal::Length);
    };
    let mut text = Vec::new(rt.alloc());
    rt.stdin()
        .take(MOST_TEXT as u64 + 1)
        .read_to_end(&mut text)?;
    if text.len() > MOST_TEXT {
        rt.stderr()
            .write_all(b"a text of more than 67,108,864 bytes is not read\n")?;
        return Ok(ExitCode::from(2));
    }
    let mut memory = [0u8; 65536];
    let Some(image) = memory.get_mut(..length) else {
        return refuse(rt, Refusal::Length);
    };
    if let Err(refusal) = read(text.as_slice(), image) {
        return refuse(rt, refusal);
    }
    rt.stdout().write_all(image)?;
    Ok(ExitCode::SUCCESS)
}

fn main(rt: HostRuntime) -> ExitCode {
    match run(&rt) {
        Ok(code) => code,
        Err(_) => ExitCode::from(2),
    }
}
