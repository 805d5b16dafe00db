// A line of the report: a name, a number, a line feed.
ghost use Rattle.std.specs.Prelude.{◌≡◌};
ghost use Rattle.text.specs.Text.{hex_digits, decimal};
ghost use Rattle.text.specs.Output.{put};
ghost use Rattle.report.specs.Lines.{line, register_line, register_lines};

use text::Text;

#[tactic(auto, using(text::proofs::Put::puts))]
pub fn decimal_line(text: &mut Text, name: &[u8], n: u64)
    ensures { text.new ≡ put text.old (line name.now (decimal n)) }
{
    text.literal(name);
    text.decimal(n);
    text.literal(b"\n");
}

#[tactic(auto, using(text::proofs::Put::puts))]
pub fn hex_line(text: &mut Text, name: &[u8], n: u32, digits: usize)
    ensures { text.new ≡ put text.old (line name.now (hex_digits digits n)) }
{
    text.literal(name);
    text.hex(n, digits);
    text.literal(b"\n");
}

fn register_line(text: &mut Text, k: usize, value: u32)
    ensures { text.new ≡ put text.old (register_line k value) }
{
    text.literal(b"r");
    text.decimal(k as u64);
    hex_line(text, b"=", value, 8);
}

#[tactic(auto, using(text::proofs::Put::puts), unfolding(crate::specs::Lines::register_lines))]
pub fn register_lines(text: &mut Text, registers: &[u32; 15])
    ensures { text.new ≡ put text.old (register_lines 15 registers.now) }
{
    for (k, value) in registers.iter().enumerate() {
        register_line(text, k, *value);
    }
}
