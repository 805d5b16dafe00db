// Arrays of words for C. The array of either machine begins with its registers. They are copied word by word: as slices they go in four moves of
// 16 bytes of which two overlap, and a load over two stores waits for both (docs/DECISIONS.md 63). A short call took up to twice the time so.
#![tactic(auto)]

ghost use Rattle.std.specs.Prelude.{◌≡◌, ◌≤◌, length};
ghost use Rattle.arrays.specs.Words.{registers_of, put};

pub fn put_registers(words: &mut [u32], registers: [u32; 15])
    requires { 15 ≤ length words.old }
    ensures { words.new ≡ put words.old 0 (registers_of registers) }
{
    words[0] = registers[0];
    words[1] = registers[1];
    words[2] = registers[2];
    words[3] = registers[3];
    words[4] = registers[4];
    words[5] = registers[5];
    words[6] = registers[6];
    words[7] = registers[7];
    words[8] = registers[8];
    words[9] = registers[9];
    words[10] = registers[10];
    words[11] = registers[11];
    words[12] = registers[12];
    words[13] = registers[13];
    words[14] = registers[14];
}

pub fn registers_of(words: &[u32]) -> [u32; 15]
    requires { 15 ≤ length words.now }
    ensures { result ≡ registers_of words.now }
{
    [
        words[0], words[1], words[2], words[3], words[4], words[5], words[6], words[7], words[8],
        words[9], words[10], words[11], words[12], words[13], words[14],
    ]
}
