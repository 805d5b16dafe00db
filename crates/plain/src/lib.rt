// The plain machine (the paper's term): one instruction after the other, with no pipeline.
#![tactic(auto)]

ghost use Rattle.std.specs.Prelude.{◌≡◌};
ghost use Rattle.plain.specs.Machine.{machine};
ghost use Rattle.plain.specs.Run.{zeroed, start, run};
ghost use Rattle.plain.specs.Told.{started_as, ran_as};

pub mod numbers;
pub mod refused;
pub mod whole;

use memory::Board;
use numbers::{refusal, start_answer};
use refused::Refusal;
use registers::Context;
use semantics::Tally;
use stops::reason::{Stop, number};
use whole::{LONGEST, wholes};

#[derive(Clone, Copy)]
pub struct Plain {
    pub registers: [u32; 15],
    pub a: u32,
    pub flags: u32,
    pub stop: u32,
    pub board: Board,
}

// What an accepted run hands back: the stop that ended it, if one did; the steps that it counted; and the machine.
#[derive(Clone, Copy)]
pub struct Ran<M> {
    pub stop: Option<Stop>,
    pub used: u64,
    pub machine: M,
}

// Where whole instructions came to: the stop met, if one was, and how many they were, in how many cycles.
#[derive(Clone, Copy)]
pub struct Came {
    pub stop: Option<Stop>,
    pub flags: u32,
    pub a: u32,
    pub done: u64,
    pub used: u64,
}

// What a refused start hands back.
impl Default for Plain {
    ghost is_default = { λ p. p ≡ zeroed };

    fn default() -> Plain {
        Plain {
            registers: [0; 15],
            a: 0,
            flags: 0,
            stop: 0,
            board: Board { size: 0 },
        }
    }
}

impl Plain {
    // Changes no memory.
    #[tactic(auto, using(crate::proofs::Accepted::given, crate::proofs::Told::some_number, crate::proofs::Told::refused_start), unfolding(crate::specs::Run::start))]
    pub fn start(
        registers: [u32; 15],
        flags: u32,
        entry: u32,
        memory: &[u8],
    ) -> Result<Plain, Refusal>
        ensures { started_as zeroed result ≡ start registers flags entry memory.now }
    {
        start_answer(memory.len(), entry, flags)?;
        Ok(Plain {
            registers,
            a: entry,
            flags,
            stop: 0,
            board: Board {
                size: memory.len() as u32,
            },
        })
    }

    // Instructions until `count` are done or a stop is met. A refused call changes nothing.
    pub fn run(self, memory: &mut [u8], count: u64) -> Result<Ran<Plain>, Refusal>
        ensures { ran_as (λ p. machine p memory.new) self result ≡ run count (machine self memory.old) }
    {
        refusal(self, memory.len(), count)?;
        if let Ok(stop) = Stop::try_from(self.stop) {
            return Ok(Ran {
                stop: Some(stop),
                used: 0,
                machine: self,
            });
        }
        let from = Context {
            flags: self.flags,
            a: self.a,
            board: self.board,
        };
        // Nobody asks for the sums of a plain run.
        let mut w = Tally::default();
        // Lent apart, so that the record's fields need not stand in memory (docs/DECISIONS.md 63).
        let mut registers = self.registers;
        let came = wholes(&mut registers, memory, from, count, count * LONGEST, &mut w);
        Ok(Ran {
            stop: came.stop,
            used: came.done,
            machine: Plain {
                registers,
                a: came.a,
                flags: came.flags,
                stop: number(came.stop),
                ..self
            },
        })
    }
}
