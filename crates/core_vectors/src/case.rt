// A case: `mode length k n`, the array of a core, k words of memory, and n calls.
use crate::call;
use arrays::registers_of;
use core_arrays::CoreArray;
use core_arrays::packing::pack;
use core_arrays::unpacking::unpacked;
use pipeline::Core;
use plain::refused::Refusal;
use tokens::mode::Mode;
use tokens::{buffer, print, token};

// A start, with registers, entry and flags where the array has them, or the array's core.
fn begin(mode: Mode, array: &CoreArray, memory: &[u8]) -> Result<Core, Refusal> {
    match mode {
        Mode::Start => Core::start(registers_of(array), array[16], array[15], memory),
        Mode::Take => Ok(unpacked(array)),
    }
}

fn print_core(core: Core) {
    let mut array = [0; 39];
    pack(&mut array, core);
    print::words(&array);
}

// Answers whether there was a case. Its memory is the first bytes of a whole buffer.
pub fn report() -> bool {
    let Some(head) = token::read::<4>() else {
        return false;
    };
    let [mode, length, words, calls] = head;
    let array = token::read_padded();
    let mut whole = [0; buffer::BYTES];
    let length = buffer::bytes(&whole, length);
    let memory = &mut whole[..length];
    buffer::read_words(memory, words);
    let (answer, mut core) = match begin(Mode::from(mode), &array, memory) {
        Ok(core) => (0, core),
        Err(refusal) => (u32::from(refusal), Core::default()),
    };
    print::field(b"", answer, 8);
    for _ in 0..calls {
        core = call::next(core, &mut whole);
    }
    print_core(core);
    buffer::print_words(&whole[..length]);
    print::bytes(b"\n");
    true
}
