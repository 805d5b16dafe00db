// Branches.
ghost use Rattle.std.specs.Prelude.{◌≡◌};
ghost use Rattle.registers.specs.Registers.{out};
ghost use Rattle.semantics.specs.Branch.{target, linked, branched};

use datapath::counter::{R15, ahead};
use registers::{Outcome, put};
use word::Branch;

fn target(i: Branch, a: u32) -> u32
    ensures { result ≡ target i a }
{
    ahead(a, 8).wrapping_add(i.offset << 2)
}

fn link(i: Branch, registers: &mut [u32; 15], flags: u32, a: u32)
    ensures { registers.new ≡ linked i registers.old flags a }
{
    if i.link {
        let r15 = R15 {
            flags,
            pc: ahead(a, 4),
        };
        put(registers, 14, r15.word());
    }
}

#[tactic(auto, unfolding(crate::specs::Branch::branched))]
pub fn branch(i: Branch, registers: &mut [u32; 15], flags: u32, a: u32) -> Outcome
    ensures { out registers.new result.flags result.goes ≡ branched i registers.old flags a }
{
    link(i, registers, flags, a);
    let to = target(i, a);
    Outcome {
        flags,
        goes: Some(to),
    }
}
