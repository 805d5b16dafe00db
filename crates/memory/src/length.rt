// How long a lent memory may be.
ghost use Rattle.std.specs.Prelude.{◌≡◌};
ghost use Rattle.memory.specs.Lengths.{bad_length};

// The smallest and the largest memory, in bytes.
pub const LEAST_BYTES: usize = 16;

pub const MOST_BYTES: usize = 65536;

// 1
pub fn length_is_bad(length: usize) -> bool
    ensures { result ≡ bad_length length }
{
    (length % 4 != 0) | (length < LEAST_BYTES) | (MOST_BYTES < length)
}
