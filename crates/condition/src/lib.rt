// The sixteen conditions against the sixteen values of the flags, as one table.
#![tactic(auto)]

ghost use Rattle.std.specs.Prelude.{◌≡◌, T};
ghost use Rattle.condition.specs.Condition.{passes};
ghost use Rattle.condition.specs.Table.{every, right};

// Row c has bit f set where condition c passes at flags f.
const CONDITIONS: [u16; 16] = [
    0xf0f0, 0x0f0f, 0xcccc, 0x3333, 0xff00, 0x00ff, 0xaaaa, 0x5555, 0x0c0c, 0xf3f3, 0xaa55, 0x55aa,
    0x0a05, 0xf5fa, 0xffff, 0x0000,
];

// The table passes its test.
#[tactic(auto, unfolding(crate::specs::Table::right, crate::specs::Condition::passes, bits::specs::Bits::bit, bits::specs::Bits::field))]
fn conditions() -> [u16; 16]
    ensures { T (every right 0 result) }
{
    CONDITIONS
}

// The bit of a condition's row that the flags name.
#[tactic(auto, using(crate::proofs::Table::ruled), unfolding(bits::specs::Bits::bit, bits::specs::Bits::field))]
fn looked_up(condition: u32, flags: u32) -> bool
    ensures { result ≡ passes condition flags }
{
    let rows = conditions();
    let row = rows[(condition % 16) as usize];
    (row >> (flags % 16)) % 2 == 1
}

// Whether an instruction of this condition is done at these flags. Most are of the condition that always is, and need no look.
#[tactic(auto, unfolding(crate::specs::Condition::passes))]
pub fn passes(condition: u32, flags: u32) -> bool
    ensures { result ≡ passes condition flags }
{
    condition == 14 || looked_up(condition, flags)
}
