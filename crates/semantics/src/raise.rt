// The two counts that whole instructions raise as they go.
ghost use Rattle.std.specs.Prelude.{◌≡◌, ◌+◌, ◌<◌, ◌^◌};
ghost use Rattle.semantics.specs.Tally.{tally, with_refills};

use crate::Tally;

// So many non-sequential accesses more, and so many beyond the instruction's own one.
pub fn raise(w: &mut Tally, n: u64, extra: u64)
    requires { (w.old.n + n < 2 ^ 64) × (w.old.extra + extra < 2 ^ 64) }
    ensures { w.new ≡ tally (w.old.n + n) (w.old.extra + extra) }
{
    w.n += n;
    w.extra += extra;
}
