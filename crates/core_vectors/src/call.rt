// A call of a case: `kind lent budget`.
ghost use Rattle.std.specs.Prelude.{◌≡◌};
ghost use Rattle.core_vectors.specs.Kind.{kind_of};

use pipeline::Core;
use plain::Ran;
use plain::refused::Refusal;
use stops::reason::number;
use tokens::{buffer, print, token};

enum Kind {
    Run,
    Settle,
}

impl From<u32> for Kind {
    ghost from_gives = { λ number kind. kind ≡ kind_of number };

    fn from(number: u32) -> Kind {
        match number {
            0 => Kind::Run,
            _ => Kind::Settle,
        }
    }
}

fn make(core: Core, kind: Kind, budget: u32, memory: &mut [u8]) -> Result<Ran<Core>, Refusal> {
    match kind {
        Kind::Run => core.run(memory, u64::from(budget)),
        Kind::Settle => core.settle(memory),
    }
}

fn print(answer: u32, used: u64) {
    print::words(&[answer, (used % 0x1_0000_0000) as u32]);
}

// Does the input's next call and prints what it answers. One that the input lacks runs nothing.
pub fn next(core: Core, whole: &mut [u8]) -> Core {
    let [kind, lent, budget] = token::read_padded::<3>();
    let lent = buffer::bytes(whole, lent);
    match make(core, Kind::from(kind), budget, &mut whole[..lent]) {
        Ok(ran) => {
            print(number(ran.stop), ran.used);
            ran.machine
        }
        Err(refusal) => {
            print(refusal.into(), 0);
            core
        }
    }
}
