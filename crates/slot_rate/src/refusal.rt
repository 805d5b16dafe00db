// Why nothing is told: a line of words, with a name that the user gave in it.
use crate::grouped::grouped;
use crate::stopped::{Stop, meaning};
use text::Text;

// What stands at the end of the line, after `why`.
#[derive(Clone, Copy)]
pub enum Detail {
    Nothing,
    // So many bytes.
    Bytes(u64),
    // The image's text is no Intel HEX that can be read.
    Hex(intel_hex::refused::Refusal),
    Stop(Stop),
    // So many in so many cycles.
    Stores { stores: u64, cycles: u64 },
}

#[derive(Clone, Copy)]
pub struct Refusal<'a> {
    what: &'static str,
    name: &'a str,
    why: &'static str,
    detail: Detail,
}

impl<'a> Refusal<'a> {
    pub fn words(what: &'static str) -> Refusal<'a> {
        Refusal {
            what,
            name: "",
            why: "",
            detail: Detail::Nothing,
        }
    }

    pub fn named(what: &'static str, name: &'a str, why: &'static str) -> Refusal<'a> {
        Refusal {
            what,
            name,
            why,
            detail: Detail::Nothing,
        }
    }

    pub fn with(self, detail: Detail) -> Refusal<'a> {
        let Refusal {
            what,
            name,
            why,
            ..
        } = self;
        Refusal {
            what,
            name,
            why,
            detail,
        }
    }
}

// A longer name is cut, so that the line has its end.
const MOST_NAME: usize = 300;

// A name stays on its line, whatever stands in it.
fn put_byte(line: &mut Text, byte: u8) {
    match byte {
        0..=31 | 127 => line.literal(b"?"),
        _ => line.literal(&[byte]),
    }
}

// Not within a character.
fn put_name(line: &mut Text, name: &str) {
    for (place, byte) in name.as_bytes().iter().enumerate() {
        if place >= MOST_NAME && *byte & 0xC0 != 0x80 {
            line.literal(b"...");
            return;
        }
        put_byte(line, *byte);
    }
}

fn put_cycles(line: &mut Text, cycles: u64) {
    grouped(line, cycles);
    line.literal(b" cycles");
}

fn put_end(line: &mut Text, end: Option<u32>) {
    match end {
        Some(address) => {
            line.literal(b", and --end is ");
            line.hex(address, 8);
        }
        None => line.literal(b", and no --end was given"),
    }
}

fn put_stop(line: &mut Text, stop: Stop) {
    line.decimal(u64::from(stop.stop));
    line.literal(b" (");
    line.literal(meaning(stop.stop).as_bytes());
    line.literal(b") at ");
    line.hex(stop.address, 8);
    line.literal(b" after ");
    put_cycles(line, stop.cycles);
    put_end(line, stop.end);
}

fn put_detail(line: &mut Text, detail: Detail) {
    match detail {
        Detail::Nothing => (),
        Detail::Bytes(bytes) => {
            grouped(line, bytes);
            line.literal(b" bytes");
        }
        Detail::Hex(refusal) => line.literal(intel_hex::message::message(refusal).as_slice()),
        Detail::Stop(stop) => put_stop(line, stop),
        Detail::Stores { stores, cycles } => {
            line.decimal(stores);
            line.literal(b" in ");
            put_cycles(line, cycles);
        }
    }
}

pub fn line(refusal: Refusal<'_>) -> Text {
    let mut line = Text::new();
    line.literal(b"rate: ");
    line.literal(refusal.what.as_bytes());
    put_name(&mut line, refusal.name);
    line.literal(refusal.why.as_bytes());
    put_detail(&mut line, refusal.detail);
    line.literal(b"\n");
    line
}
