// Images as Intel HEX.
ghost use Rattle.std.specs.Prelude.{◌≡◌};
ghost use Rattle.slot.specs.Hex.{read_as, hex_read, line_as, hex_line};

use intel_hex::reader::read;
use intel_hex::writer::write;

#[unsafe(no_mangle)]
pub extern "C" fn slot_hex_read(text: &[u8], memory: &mut [u8]) -> u32
    ensures { read_as result memory.new ≡ hex_read text.now memory.old }
{
    match read(text, memory) {
        Ok(()) => 0,
        Err(refusal) => refusal.into(),
    }
}

// A refusal, and any line past the end record, leaves `out` as it was.
#[unsafe(no_mangle)]
pub extern "C" fn slot_hex_line(
    memory: &[u8],
    line: u32,
    out: &mut [u8; 44],
    written: &mut u32,
) -> u32
    ensures { line_as result written.new out.new ≡ hex_line memory.now line out.old }
{
    match write(memory, line) {
        Ok(text) => {
            let bytes = text.as_slice();
            out[..bytes.len()].copy_from_slice(bytes);
            *written = bytes.len() as u32;
            0
        }
        Err(refusal) => {
            *written = 0;
            refusal.into()
        }
    }
}
