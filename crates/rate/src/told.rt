// All that is told, in one piece.
ghost use Rattle.std.specs.Prelude.{◌≡◌, IfOk};
ghost use Rattle.rate.specs.Texts.{told};

use crate::texts::{head, last_lines, option_line};
use crate::{Figures, Request};
use std::alloc::{AllocError, Global};

pub fn told(alloc: Global, r: &Request, f: &Figures) -> Result<Vec<u8>, AllocError>
    ensures { IfOk result (λ all. all.items ≡ told r.now f.now) }
{
    let mut all = Vec::new(alloc);
    all.extend_from_slice(head(f).as_slice())?;
    let count = r.count.min(32);
    for k in 0..count {
        all.extend_from_slice(option_line(r.options[k], f.verdicts[k]).as_slice())?;
    }
    all.extend_from_slice(last_lines(f).as_slice())?;
    Ok(all)
}
