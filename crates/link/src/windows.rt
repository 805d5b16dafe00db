// The link window's test, and which windows are refused.
ghost use Rattle.std.specs.Prelude.{◌≡◌};
ghost use Rattle.link.specs.Window.{inside, bad_window};

use crate::Window;

pub fn within(w: Window, address: u32) -> bool
    ensures { result ≡ inside w address }
{
    w.from <= address && address < w.to
}

// Off a word, empty, or outside a memory of so many bytes.
#[tactic(auto, unfolding(crate::specs::Window::bad_window))]
pub fn bad_window(w: Window, length: usize) -> bool
    ensures { result ≡ bad_window w length }
{
    w.from % 4 != 0 || w.to % 4 != 0 || w.to <= w.from || length < w.to as usize
}
