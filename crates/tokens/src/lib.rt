// Cases as tokens: reading them from standard input and printing what they leave, which the programs of vectors share.
#![tactic(auto)]

pub mod buffer;
pub mod mode;
pub mod print;
pub mod token;

ghost use Rattle.tokens.specs.Cases.{CallsUntilNone};

// Does every case of the input: calls `case` until it answers that there was none. The count only shows that the loop ends; no
// input has so many.
pub fn each_case<F: FnMut() -> bool>(mut case: F)
    requires { F.IsAlwaysCallable case }
    ensures { CallsUntilNone (λ p found q. F.step p found q) case }
{
    for _n in 0..u64::MAX {
        if !case() {
            break;
        }
    }
}
