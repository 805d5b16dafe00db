// The writer: a line for each line number.
ghost use Rattle.std.specs.Prelude.{◌≡◌, ◌≤◌, ◌<◌, ◌%◌, length, sum, IfOk};
ghost use Rattle.text.specs.Output.{put};
ghost use Rattle.intel_hex.specs.Writer.{pairs, record_line, rows, line, writing, write};

use crate::refused::Refusal;
use memory::length::length_is_bad;
use text::Text;

// How many data bytes a record has, but for a shorter last one.
const ROW: usize = 16;

#[tactic(auto, using(crate::proofs::Written::put_more, text::proofs::Put::puts), unfolding(crate::specs::Writer::pairs))]
fn pairs(text: &mut Text, bytes: &[u8])
    ensures { text.new ≡ put text.old (pairs bytes.now) }
{
    for byte in bytes {
        text.hex(u32::from(*byte), 2);
    }
}

// Modulo 256.
fn sum(bytes: &[u8]) -> u8
    ensures { result ≡ sum bytes.now % 256 }
{
    let mut sum = 0u8;
    for byte in bytes {
        sum = sum.wrapping_add(*byte);
    }
    sum
}

fn record_line(kind: u8, address: u16, bytes: &[u8]) -> Text
    requires { length bytes.now ≤ 16 }
    ensures value { result ≡ record_line kind address bytes.now }
    ensures upper_bound { length result ≤ 44 }
{
    let [high, low] = address.to_be_bytes();
    let head = [bytes.len() as u8, high, low, kind];
    let total = sum(&head).wrapping_add(sum(bytes));
    let mut text = Text::new();
    text.literal(b":");
    pairs(&mut text, &head);
    pairs(&mut text, bytes);
    pairs(&mut text, &[0u8.wrapping_sub(total)]);
    text.literal(b"\n");
    text
}

#[tactic(auto, unfolding(crate::specs::Writer::line))]
fn line(memory: &[u8], number: usize) -> Text
    requires { length memory.now ≤ 65536 }
    ensures value { result ≡ line memory.now number }
    ensures upper_bound { length result ≤ 44 }
{
    let rows = memory.len().div_ceil(ROW);
    if number < rows {
        let at = ROW * number;
        let end = memory.len().min(at + ROW);
        record_line(0, at as u16, &memory[at..end])
    } else if number == rows {
        record_line(1, 0, &[])
    } else {
        Text::new()
    }
}

// Nothing past the end record.
#[tactic(auto, unfolding(crate::specs::Writer::write))]
pub fn write(memory: &[u8], number: u32) -> Result<Text, Refusal>
    ensures line { writing result ≡ write memory.now number }
    ensures upper_bound { IfOk result (λ text. length text ≤ 44) }
{
    if length_is_bad(memory.len()) {
        return Err(Refusal::Length);
    }
    Ok(line(memory, number as usize))
}
