// A key, its value and a line feed.
ghost use Rattle.std.specs.Prelude.{◌≡◌, ◌++◌};
ghost use Rattle.text.specs.Text.{hex_digits, decimal};
ghost use Rattle.text.specs.Quoted.{bytes};
ghost use Rattle.text.specs.Output.{put};

use text::Text;

#[tactic(auto, using(text::proofs::Put::puts))]
pub fn counted(text: &mut Text, key: &[u8], n: u64)
    ensures { text.new ≡ put text.old (key.now ++ (decimal n ++ bytes "\n")) }
{
    text.literal(key);
    text.decimal(n);
    text.literal(b"\n");
}

// Eight digits.
#[tactic(auto, using(text::proofs::Put::puts))]
pub fn address(text: &mut Text, key: &[u8], n: u32)
    ensures { text.new ≡ put text.old (key.now ++ (hex_digits 8 n ++ bytes "\n")) }
{
    text.literal(key);
    text.hex(n, 8);
    text.literal(b"\n");
}
