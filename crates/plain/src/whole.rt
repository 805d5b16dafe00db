// Whole instructions: the one loop that the runs of both machines stand on. Registers and memory stay where they are lent.
ghost use Rattle.std.specs.Prelude.{◌≡◌, ◌+◌, ◌≤◌, ◌<◌, ◌^◌};
ghost use Rattle.plain.specs.Whole.{wholes, going, came_to};

use crate::Came;
use registers::Context;
use semantics::Tally;
use semantics::perform::perform_at;

// The cycles of the longest instruction: a load of sixteen registers, the counter among them.
pub const LONGEST: u64 = 20;

// At most `count` instructions, while the longest fits into the budget of cycles and no stop is met. What they raise in the tally,
// which starts at 0, tells their sums. Counting down is a test against 0 and takes no register for the count.
pub fn wholes(
    registers: &mut [u32; 15],
    memory: &mut [u8],
    from: Context,
    count: u64,
    budget: u64,
    w: &mut Tally,
) -> Came
    requires { (w.old.n ≡ 0) × (w.old.extra ≡ 0) × (budget < 2 ^ 62) }
    ensures { came_to result w.new registers.new from.board memory.new ≡ wholes count budget (going registers.old from.flags from.a from.board memory.old) }
{
    let mut status = from.flags;
    let mut here = from.a;
    let mut left = budget;
    let mut more = count;
    while more != 0 {
        if left < LONGEST {
            break;
        }
        let c = Context {
            flags: status,
            a: here,
            ..from
        };
        match perform_at(registers, memory, c, w) {
            Ok(r) => {
                status = r.flags;
                here = r.next;
                left -= u64::from(r.cycles);
                more -= 1;
            }
            Err(stop) => {
                return Came {
                    stop: Some(stop),
                    flags: status,
                    a: here,
                    done: count - more,
                    used: budget - left,
                };
            }
        }
    }
    Came {
        stop: None,
        flags: status,
        a: here,
        done: count - more,
        used: budget - left,
    }
}
