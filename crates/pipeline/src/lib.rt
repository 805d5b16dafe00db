// The pipelined core: its record and its calls: a start, a run, settle, and a cycle.
#![tactic(auto)]

ghost use Rattle.std.specs.Prelude.{◌≡◌, length};
ghost use Rattle.pipeline.specs.Calls.{zeroed, seen, start, run, settle};
ghost use Rattle.plain.specs.Told.{started_as, ran_as};

use cycle::Control;
use cycle::fresh::fresh;
use memory::Board;
use plain::Ran;
use plain::numbers::start_answer;
use plain::refused::Refusal;
use refusals::numbers::at_once;
use runs::left::cycles_left;
use runs::run::run_from;
use steps::Phase;

#[derive(Clone, Copy)]
pub struct Core {
    pub registers: [u32; 15],
    pub control: Control,
}

// What a refused start hands back.
impl Default for Core {
    ghost is_default = { λ core. core ≡ zeroed };

    fn default() -> Core {
        let control = Control {
            phase: Phase::Step1,
            ..fresh(0, 0, Board { size: 0 })
        };
        Core {
            registers: [0; 15],
            control,
        }
    }
}

impl Core {
    #[tactic(auto, using(plain::proofs::Accepted::given, plain::proofs::Told::some_number, plain::proofs::Told::refused_start), unfolding(crate::specs::Calls::start))]
    pub fn start(
        registers: [u32; 15],
        flags: u32,
        entry: u32,
        memory: &[u8],
    ) -> Result<Core, Refusal>
        ensures { started_as zeroed result ≡ start registers flags entry memory.now }
    {
        start_answer(memory.len(), entry, flags)?;
        let size = memory.len() as u32;
        let control = fresh(flags, entry, Board { size });
        Ok(Core { registers, control })
    }

    // Cycles until the budget is spent or a stop is found. A refused call changes nothing.
    pub fn run(self, memory: &mut [u8], budget: u64) -> Result<Ran<Core>, Refusal>
        ensures { ran_as (seen memory.new) self result ≡ run (length memory.old) budget (seen memory.old self) }
    {
        // Lent apart, so that the registers are copied once each way (docs/DECISIONS.md 63).
        let mut registers = self.registers;
        let c = self.control;
        let went = match at_once(memory.len(), budget, c, &registers)? {
            None => run_from(c, &mut registers, memory, budget),
            Some(stop) => Ran {
                stop: Some(stop),
                used: 0,
                machine: c,
            },
        };
        Ok(Ran {
            stop: went.stop,
            used: went.used,
            machine: Core {
                registers,
                control: went.machine,
            },
        })
    }

    // The cycles left of the instruction or refill under way, to the next boundary; no stop is found. It is the run with a
    // budget of so many: away from step 1 a run finds no stop, and at step 1 this budget is spent.
    pub fn settle(self, memory: &mut [u8]) -> Result<Ran<Core>, Refusal>
        ensures { ran_as (seen memory.new) self result ≡ settle (length memory.old) (seen memory.old self) }
    {
        let left = cycles_left(self.control, &self.registers);
        self.run(memory, left)
    }

    // One cycle, or the stop found: a run with a budget of 1.
    pub fn cycle(self, memory: &mut [u8]) -> Result<Ran<Core>, Refusal>
        ensures { ran_as (seen memory.new) self result ≡ run (length memory.old) 1 (seen memory.old self) }
    {
        self.run(memory, 1)
    }
}
