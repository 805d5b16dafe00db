// The program counter and the words of R15 (paper 01, "R15 read").
ghost use Rattle.std.specs.Prelude.{◌≡◌};
ghost use Rattle.datapath.specs.Counter.{ahead, behind, counter, r15_word};

// How many values a counter has.
pub const COUNTERS: u32 = 0x4000000;

// The counter n bytes on, modulo 2^26.
#[tactic(auto, unfolding(crate::specs::Counter::ahead))]
pub fn ahead(a: u32, n: u32) -> u32
    ensures { result ≡ ahead a n }
{
    a.wrapping_add(n) % COUNTERS
}

// The address of the instruction that is n bytes behind this counter: 8 in its step 1, 12 in a later step.
#[tactic(auto, unfolding(crate::specs::Counter::ahead, crate::specs::Counter::behind))]
pub fn behind(pc: u32, n: u32) -> u32
    ensures { result ≡ behind pc n }
{
    ahead(pc, COUNTERS.saturating_sub(n))
}

// The counter that a word stores: its bits 25..2.
#[tactic(auto, unfolding(crate::specs::Counter::counter))]
pub fn counter(word: u32) -> u32
    ensures { result ≡ counter word }
{
    word / 4 % 0x1000000 * 4
}

// What R15 is read from: the flags, and the counter as it stands at the read.
#[derive(Clone, Copy)]
pub struct R15 {
    pub flags: u32,
    pub pc: u32,
}

impl R15 {
    // Flags in bits 31..28 with the counter's bits 25..2, and 0 in the other four.
    #[tactic(auto, unfolding(crate::specs::Counter::counter, crate::specs::Counter::r15_word))]
    pub fn word(self) -> u32
        ensures { result ≡ r15_word self.flags self.pc }
    {
        self.flags % 16 * 0x10000000 + counter(self.pc)
    }
}
