// The image: raw memory, or Intel HEX by its first byte.
use crate::refusal::{Detail, Refusal};
use memory::length::{MOST_BYTES, length_is_bad};
use std::fs::File;
use std::io::{self, ErrorKind, Read};

// A longer file is not read, so that an endless input ends.
const MOST_TEXT: usize = 64 * 1024 * 1024;

const ELF: &[u8; 4] = b"\x7fELF";

fn why(error: &io::Error) -> &'static str {
    match error.kind() {
        ErrorKind::NotFound => ": there is no such file",
        ErrorKind::IsADirectory => ": it is a folder",
        ErrorKind::NotADirectory => ": there is no such folder",
        ErrorKind::PermissionDenied => ": permission denied",
        ErrorKind::OutOfMemory => ": there is not enough memory",
        _ => ": reading failed",
    }
}

fn all<R: Read + Drop>(bytes: &mut Vec<u8>, reader: R) -> io::Result<()> {
    reader.take(MOST_TEXT as u64 + 1).read_to_end(bytes)?;
    Ok(())
}

fn bytes(rt: &HostRuntime, file: &str) -> io::Result<Vec<u8>> {
    let mut bytes = Vec::new(rt.alloc());
    if file == "-" {
        all(&mut bytes, rt.stdin())?;
    } else {
        all(&mut bytes, File::open(rt, file)?)?;
    }
    Ok(bytes)
}

// What people know the file by.
pub fn shown(file: &str) -> &str {
    if file == "-" { "standard input" } else { file }
}

fn hex<'a>(text: &[u8], file: &'a str, memory: &mut [u8; 65536]) -> Result<usize, Refusal<'a>> {
    match intel_hex::reader::read(text, memory) {
        Ok(()) => Ok(MOST_BYTES),
        Err(refusal) => {
            let name = shown(file);
            Err(Refusal::named("", name, ", Intel HEX by its first byte, is ").with(Detail::Hex(
                refusal,
            )))
        }
    }
}

fn bad_length<'a>(file: &'a str, length: usize) -> Refusal<'a> {
    let what = "an image has 16 to 65,536 bytes, a multiple of 4; ";
    if length > MOST_TEXT {
        return Refusal::named(what, shown(file), " has more than 67,108,864");
    }
    Refusal::named(what, shown(file), " has ").with(Detail::Bytes(length as u64))
}

fn raw<'a>(bytes: &[u8], file: &'a str, memory: &mut [u8; 65536]) -> Result<usize, Refusal<'a>> {
    let length = bytes.len();
    if length_is_bad(length) {
        return Err(bad_length(file, length));
    }
    for (place, byte) in memory.iter_mut().zip(bytes) {
        *place = *byte;
    }
    Ok(length)
}

fn elf(file: &str) -> Refusal<'_> {
    Refusal::named(
        "",
        shown(file),
        " is an ELF file and no image; arm-none-eabi-objcopy -O binary ELF IMAGE makes one (README.md has the whole recipe)",
    )
}

// By its first bytes.
fn sorted<'a>(bytes: &[u8], file: &'a str, memory: &mut [u8; 65536]) -> Result<usize, Refusal<'a>> {
    if bytes.starts_with(ELF) {
        return Err(elf(file));
    }
    if bytes.first() != Some(&b':') {
        return raw(bytes, file, memory);
    }
    if bytes.len() > MOST_TEXT {
        return Err(Refusal::named(
            "",
            shown(file),
            " has more than 67,108,864 bytes of Intel HEX, and is not read",
        ));
    }
    hex(bytes, file, memory)
}

// Into the beginning of `memory`; gives the image's length.
pub fn read<'a>(
    rt: &HostRuntime,
    file: &'a str,
    memory: &mut [u8; 65536],
) -> Result<usize, Refusal<'a>> {
    match bytes(rt, file) {
        Ok(bytes) => sorted(bytes.as_slice(), file, memory),
        Err(error) => Err(Refusal::named("cannot read ", shown(file), why(&error))),
    }
}
