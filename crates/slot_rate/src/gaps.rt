// The file of --gaps: a line a store, `cycle tick XXXXXXXX bits`.
use std::fs::File;
use std::io::{self, Write};
use text::Text;

// What is kept before it is written.
const FULL: usize = 65536;

#[derive(Drop)]
pub struct Gaps {
    file: File,
    lines: Vec<u8>,
}

fn line(cycle: u64, tick: u64, address: u32, bits: u64) -> Text {
    let mut line = Text::new();
    line.decimal(cycle);
    line.literal(b" ");
    line.decimal(tick);
    line.literal(b" ");
    line.hex(address, 8);
    line.literal(b" ");
    line.decimal(bits);
    line.literal(b"\n");
    line
}

impl Gaps {
    pub fn create(rt: &HostRuntime, file: &str) -> io::Result<Gaps> {
        Ok(Gaps {
            file: File::create(rt, file)?,
            lines: Vec::new(rt.alloc()),
        })
    }

    pub fn store(&mut self, cycle: u64, tick: u64, address: u32, bits: u64) -> io::Result<()> {
        let line = line(cycle, tick, address, bits);
        self.lines.extend_from_slice(line.as_slice())?;
        if self.lines.len() < FULL {
            return Ok(());
        }
        self.flush()
    }

    pub fn flush(&mut self) -> io::Result<()> {
        self.file.write_all(self.lines.as_slice())?;
        self.lines.clear();
        Ok(())
    }

    pub fn clear(&mut self) {
        self.lines.clear();
        let _ = self.file.set_len(0);
    }
}
