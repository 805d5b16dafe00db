// The reader: a text into lent memory, each line once.
ghost use Rattle.std.specs.Prelude.{◌≡◌};
ghost use Rattle.intel_hex.specs.Reader.{zeros, records, read_on, reading, read};
ghost use Rattle.intel_hex.specs.Walk.{came_to};

use crate::cut::cut;
use crate::records::{Came, record};
use crate::refused::Refusal;
use memory::length::length_is_bad;

fn read_lines(text: &[u8], memory: &mut [u8]) -> Result<(), Refusal>
    ensures { came_to result memory.new ≡ read_on 0 0 memory.old (records text.now) }
{
    let mut at = 0;
    let mut line = 0;
    let mut upper = 0;
    while at < text.len() {
        line += 1;
        let left = &text[at..];
        let Some(found) = cut(left) else {
            return Err(Refusal::Unsound { line });
        };
        match record(found.count, &left[3..found.length], memory, upper) {
            Came::Unsound => return Err(Refusal::Unsound { line }),
            Came::Outside => return Err(Refusal::Outside { line }),
            Came::End => return Ok(()),
            Came::Onward { upper: half } => upper = half,
        }
        at += found.whole;
    }
    Err(Refusal::NoEnd { lines: line })
}

// A refused text leaves the lent memory zero.
fn cleared(lent: &mut [u8], refusal: Refusal) -> Refusal
    ensures refusal { result ≡ refusal }
    ensures memory { lent.new ≡ zeros lent.old }
{
    lent.fill(0);
    refusal
}

// Memory is cleared before the first line, for bytes that no record names are 0.
pub fn read(text: &[u8], memory: &mut [u8]) -> Result<(), Refusal>
    ensures { reading result memory.new ≡ read text.now memory.old }
{
    if length_is_bad(memory.len()) {
        return Err(Refusal::Length);
    }
    memory.fill(0);
    match read_lines(text, memory) {
        Ok(()) => Ok(()),
        Err(refusal) => Err(cleared(memory, refusal)),
    }
}
