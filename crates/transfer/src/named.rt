// The named registers of a block list, whose low 16 bits stand for R0 to R15.
ghost use Rattle.std.specs.Prelude.{◌≡◌, [], ◌∷◌, MatchOption, unwrap_or, length, drop, slice_index_or};
ghost use Rattle.std.specs.Iterator.{YieldsFirst, item_count};
ghost use mathlib.Core.List.{tail};
ghost use Rattle.transfer.specs.Block.{named, list_of};

pub fn count(list: u32) -> u32
    ensures { result ≡ length (named list) }
{
    (list % 65536).count_ones()
}

// The lowest named register: a bit above the registers ends the search.
pub fn lowest(list: u32) -> Option<u32>
    ensures first { MatchOption result (named list ≡ []) (λ n. named list ≡ n ∷ tail (named list)) }
    ensures or_16 { unwrap_or result 16 ≡ slice_index_or (named list) 0 16 }
{
    let n = (list % 65536 + 65536).trailing_zeros();
    if n < 16 { Some(n) } else { None }
}

// The list without its lowest register.
pub fn rest(list: u32) -> u32
    ensures result_value { named result ≡ tail (named list) }
    ensures value { result ≡ list_of (tail (named list)) }
{
    let above = list % 65536 + 65536;
    (above - (1 << above.trailing_zeros())) % 65536
}

// The list without its k lowest registers.
pub fn dropped(list: u32, k: u32) -> u32
    ensures result_value { named result ≡ drop k (named list) }
    ensures value { result ≡ list_of (drop k (named list)) }
{
    let mut left = list % 65536;
    for _taken in 0..k {
        if left == 0 {
            return 0;
        }
        left = rest(left);
    }
    left
}

// The named registers of a list, lowest first.
#[derive(Drop)]
pub struct NamedRegisters(pub u32);

impl Iterator for NamedRegisters {
    type Item = u32;

    ghost next_gives = { YieldsFirst (λ s. named s.0) };

    ghost remaining = { item_count (λ s. named s.0) };

    fn next(&mut self) -> Option<u32> {
        let first = lowest(self.0)?;
        self.0 = rest(self.0);
        Some(first)
    }
}
