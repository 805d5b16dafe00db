// The report program's text: an image is run from 0 with a budget of 64, and the core is told line by line.
#![tactic(auto)]

mod lines;

ghost use Rattle.std.specs.Prelude.{◌≡◌, ◌++◌, ◌<◌, ◌^◌};
ghost use Rattle.semantics.specs.Sums.{total, ticks};
ghost use Rattle.text.specs.Output.{put};
ghost use Rattle.report.specs.Report.{answer_line, core_lines, report_text, image_after};

use lines::{decimal_line, hex_line, register_lines};
use pipeline::Core;
use semantics::Sums;
use stops::reason::number;
use text::Text;

// How many cycles the run may take (the paper's).
const BUDGET: u64 = 64;

// Standard output's number.
const STDOUT: i32 = 1;

#[tactic(auto, unfolding(crate::specs::Report::answer_line))]
fn answer_line(text: &mut Text, answer: u32)
    ensures { text.new ≡ put text.old (answer_line answer) }
{
    decimal_line(text, b"answer=", u64::from(answer));
}

// Ticks of the slot memory: two for a non-sequential cycle, one for any other.
fn ticks(q: Sums) -> u64
    requires { total q < 2 ^ 62 }
    ensures { result ≡ ticks q }
{
    2 * q.n + q.s + q.i
}

fn core_lines(text: &mut Text, core: &Core)
    requires { total core.now.control.counts.sums < 2 ^ 62 }
    ensures { text.new ≡ put text.old (core_lines core.now.registers core.now.control) }
{
    let control = &core.control;
    hex_line(text, b"pc=", control.pipe.pc, 8);
    decimal_line(text, b"cycles=", control.counts.cycles);
    decimal_line(text, b"ticks=", ticks(control.counts.sums));
    decimal_line(text, b"retired=", control.counts.retired);
    hex_line(text, b"flags=", control.flags, 1);
    register_lines(text, &core.registers);
}

fn run_lines(text: &mut Text, answer: u32, core: &Core)
    requires { total core.now.control.counts.sums < 2 ^ 62 }
    ensures { text.new ≡ put text.old (answer_line answer ++ core_lines core.now.registers core.now.control) }
{
    answer_line(text, answer);
    core_lines(text, core);
}

// An image that the start refuses leaves its answer's line only.
pub fn report(image: &mut [u8]) -> Text
    ensures text { result ≡ report_text image.old }
    ensures image { image.new ≡ image_after image.old }
{
    let mut text = Text::new();
    match Core::start([0; 15], 0, 0, image) {
        Ok(core) => match core.run(image, BUDGET) {
            Ok(ran) => run_lines(&mut text, number(ran.stop), &ran.machine),
            Err(refusal) => run_lines(&mut text, refusal.into(), &core),
        },
        Err(refusal) => answer_line(&mut text, refusal.into()),
    }
    text
}

// On standard output.
pub fn print(image: &mut [u8]) {
    io::write_all(STDOUT, report(image).as_slice());
}
