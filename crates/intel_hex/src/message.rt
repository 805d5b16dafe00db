// What people are told of a refusal.
ghost use Rattle.std.specs.Prelude.{◌≡◌};
ghost use Rattle.text.specs.Output.{put};
ghost use Rattle.intel_hex.specs.Message.{meaning, message};

use crate::refused::Refusal;
use text::Text;

#[tactic(auto, using(text::proofs::Put::puts))]
fn meaning(text: &mut Text, refusal: Refusal)
    ensures { text.new ≡ put text.old (meaning refusal) }
{
    match refusal {
        Refusal::Length => {
            text.literal(b"an image has 16 to 65,536 bytes, a multiple of 4");
        }
        Refusal::Unsound { line } => {
            text.literal(b"line ");
            text.decimal(line as u64);
            text.literal(b" is not a sound record of type 00, 01 or 04");
        }
        Refusal::Outside { line } => {
            text.literal(b"line ");
            text.decimal(line as u64);
            text.literal(b" has data beyond the memory");
        }
        Refusal::NoEnd { lines } => {
            text.literal(b"no end record, the text ends after line ");
            text.decimal(lines as u64);
        }
    }
}

pub fn message(refusal: Refusal) -> Text
    ensures { result ≡ message refusal }
{
    let mut text = Text::new();
    text.literal(b"refused with ");
    text.decimal(u64::from(u32::from(refusal)));
    text.literal(b": ");
    meaning(&mut text, refusal);
    text
}
