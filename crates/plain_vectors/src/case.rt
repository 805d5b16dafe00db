// A case: `mode length lent entry flags stop count k`, then fifteen registers and k words of memory.
use crate::{state, walked};
use memory::Board;
use plain::Plain;
use plain::refused::Refusal;
use stops::reason::number;
use tokens::mode::Mode;
use tokens::{buffer, print, token};

// A record, started or taken as it is given.
fn begin(mode: Mode, given: Plain, memory: &[u8]) -> Result<Plain, Refusal> {
    match mode {
        Mode::Start => Plain::start(given.registers, given.flags, given.a, memory),
        Mode::Take => Ok(given),
    }
}

// Answers whether there was a case. Its memory is the first bytes of a whole buffer.
pub fn report() -> bool {
    let Some(head) = token::read::<8>() else {
        return false;
    };
    let [mode, length, lent, entry, flags, stop, count, words] = head;
    let registers = token::read_padded();
    let given = Plain {
        registers,
        a: entry,
        flags,
        stop,
        board: Board { size: length },
    };
    let mut whole = [0; buffer::BYTES];
    let length = buffer::bytes(&whole, length);
    let memory = &mut whole[..length];
    buffer::read_words(memory, words);
    let (answer, plain) = match begin(Mode::from(mode), given, memory) {
        Ok(plain) => (0, plain),
        Err(refusal) => (u32::from(refusal), Plain::default()),
    };
    let lent = buffer::bytes(&whole, lent);
    print::field(b"", answer, 8);
    let left = match plain.run(&mut whole[..lent], u64::from(count)) {
        Ok(ran) => {
            state::print(number(ran.stop), ran.used, ran.machine);
            ran.machine
        }
        Err(refusal) => {
            state::print(refusal.into(), 0, plain);
            plain
        }
    };
    print::words(&walked::at(left, &whole[..lent]));
    buffer::print_words(&whole[..length]);
    print::bytes(b"\n");
    true
}
