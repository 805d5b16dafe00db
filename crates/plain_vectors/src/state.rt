// The state that a run leaves: `answer done a flags stop length`, and the registers.
use plain::Plain;
use tokens::print;

pub fn print(answer: u32, done: u64, plain: Plain) {
    print::words(&[
        answer,
        (done % 0x1_0000_0000) as u32,
        plain.a,
        plain.flags,
        plain.stop,
        plain.board.size,
    ]);
    print::words(&plain.registers);
}
