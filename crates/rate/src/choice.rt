// The option to choose.
ghost use Rattle.std.specs.Prelude.{◌≡◌, ◌≤◌, length};
ghost use Rattle.rate.specs.Figures.{chosen};

use link::Verdict;
use link::buffers::carries;

// The first that carries.
pub fn chosen(options: &[u32], verdicts: &[Verdict]) -> Option<u32>
    requires { length options.now ≤ length verdicts.now }
    ensures { result ≡ chosen options.now verdicts.now }
{
    for (k, option) in options.iter().enumerate() {
        if carries(verdicts[k]) {
            return Some(*option);
        }
    }
    None
}
