// From a core to its array, group by group.
ghost use Rattle.std.specs.Prelude.{◌≡◌};
ghost use Rattle.core_arrays.specs.CoreArray.{pipe_words, latch_words, counts_words, sums_words, packed};

use crate::CoreArray;
use crate::counts::count_words;
use crate::fetched::fetched_words;
use crate::phases::phase_number;
use arrays::put_registers;
use cycle::{Counts, Pipe};
use pipeline::Core;
use semantics::Sums;
use steps::Latches;

fn pipe_words(flags: u32, p: Pipe) -> [u32; 8]
    ensures { result ≡ pipe_words flags p }
{
    let [ir1, ir1_valid] = fetched_words(p.ir1);
    let [ir2, ir2_valid] = fetched_words(p.ir2);
    let [ix, ix_valid] = fetched_words(p.ix);
    [p.pc, flags, ir1, ir1_valid, ir2, ir2_valid, ix, ix_valid]
}

fn latch_words(l: Latches) -> [u32; 3]
    ensures { result ≡ latch_words l }
{
    [l.address, l.datum, l.base]
}

fn counts_words(n: Counts) -> [u32; 4]
    ensures { result ≡ counts_words n }
{
    let [cycles, cycles_high] = count_words(n.cycles);
    let [retired, retired_high] = count_words(n.retired);
    [cycles, cycles_high, retired, retired_high]
}

fn sums_words(q: Sums) -> [u32; 6]
    ensures { result ≡ sums_words q }
{
    let [n, n_high] = count_words(q.n);
    let [s, s_high] = count_words(q.s);
    let [i, i_high] = count_words(q.i);
    [n, n_high, s, s_high, i, i_high]
}

pub fn pack(words: &mut CoreArray, core: Core)
    ensures { words.new ≡ packed core }
{
    let c = core.control;
    put_registers(words, core.registers);
    words[15..23].copy_from_slice(&pipe_words(c.flags, c.pipe));
    words[23] = phase_number(c.phase);
    words[24..27].copy_from_slice(&latch_words(c.latches));
    words[27..31].copy_from_slice(&counts_words(c.counts));
    words[31] = c.stop;
    words[32] = c.board.size;
    words[33..39].copy_from_slice(&sums_words(c.counts.sums));
}
