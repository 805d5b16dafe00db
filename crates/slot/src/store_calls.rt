// What the coming cycle of a core stores.
ghost use Rattle.std.specs.Prelude.{◌≡◌, List, ℕ};
ghost use Rattle.stores.specs.Coming.{write_of};
ghost use Rattle.slot.specs.Store.{core_store};

use core_arrays::CoreArray;
use core_arrays::unpacking::{stands_for_core, unpacked};
use stores::Write;
use stores::coming::coming;

const NOTHING: Write = Write {
    bytes: 0,
    address: 0,
};

#[tactic(auto, unfolding(crate::specs::Store::core_store))]
fn store_of(core: &CoreArray) -> Write
    ensures { (mem : List ℕ) → result ≡ core_store core.now mem }
{
    let control = unpacked(core).control;
    if stands_for_core(core) && control.stop == 0 {
        coming(control)
    } else {
        NOTHING
    }
}

#[unsafe(no_mangle)]
pub extern "C" fn slot_core_store(core: &CoreArray, address: &mut u32) -> u32
    ensures { (mem : List ℕ) → write_of result address.new ≡ core_store core.now mem }
{
    let write = store_of(core);
    *address = write.address;
    write.bytes
}
