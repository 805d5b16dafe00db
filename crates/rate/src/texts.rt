// The texts of the figures, in their order: the head, a line for each option, the choice and the claim.
ghost use Rattle.std.specs.Prelude.{◌≡◌};
ghost use Rattle.text.specs.Output.{put};
ghost use Rattle.rate.specs.Texts.{word_line, end_lines, count_lines, time_lines, gap_lines, rate_line, head, yes_no, overflow_told, option_line, choice_told, last_lines};

use crate::Figures;
use crate::lines::{address, counted};
use link::{Summary, Verdict};
use text::Text;

#[tactic(auto, using(text::proofs::Put::puts))]
fn word_line(text: &mut Text, word: Option<u32>)
    ensures { text.new ≡ put text.old (word_line word) }
{
    if let Some(word) = word {
        address(text, b"end_word=", word);
    }
}

#[tactic(auto, using(text::proofs::Put::puts), unfolding(crate::specs::Texts::end_lines))]
fn end_lines(text: &mut Text, f: &Figures)
    ensures { text.new ≡ put text.old (end_lines f.now) }
{
    counted(text, b"end=", u64::from(f.end));
    if f.end != 0 {
        address(text, b"end_address=", f.end_address);
        word_line(text, f.end_word);
    }
}

#[tactic(auto, using(text::proofs::Put::puts), unfolding(crate::specs::Texts::count_lines))]
fn count_lines(text: &mut Text, f: &Figures)
    ensures { text.new ≡ put text.old (count_lines f.now) }
{
    counted(text, b"cycles=", f.cycles);
    counted(text, b"ticks=", f.ticks);
    counted(text, b"stores=", f.summary.stores);
    counted(text, b"bits=", f.summary.bits);
}

#[tactic(auto, using(text::proofs::Put::puts), unfolding(crate::specs::Texts::time_lines))]
fn time_lines(text: &mut Text, s: Summary)
    ensures { text.new ≡ put text.old (time_lines s) }
{
    counted(text, b"first_cycle=", s.cycles.first);
    counted(text, b"first_tick=", s.ticks.first);
    counted(text, b"last_cycle=", s.cycles.last);
    counted(text, b"last_tick=", s.ticks.last);
}

#[tactic(auto, using(text::proofs::Put::puts), unfolding(crate::specs::Texts::gap_lines))]
fn gap_lines(text: &mut Text, s: Summary)
    ensures { text.new ≡ put text.old (gap_lines s) }
{
    counted(text, b"least_gap_cycles=", s.cycles.least);
    counted(text, b"least_gap_ticks=", s.ticks.least);
    counted(text, b"greatest_gap_cycles=", s.cycles.greatest);
    counted(text, b"greatest_gap_ticks=", s.ticks.greatest);
}

// Always one decimal.
#[tactic(auto, using(text::proofs::Put::puts), unfolding(crate::specs::Texts::rate_line))]
fn rate_line(text: &mut Text, tenths: u64)
    ensures { text.new ≡ put text.old (rate_line tenths) }
{
    text.literal(b"rate=");
    text.decimal(tenths / 10);
    counted(text, b".", tenths % 10);
}

// From length to rate.
pub fn head(f: &Figures) -> Text
    ensures { result ≡ head f.now }
{
    let mut text = Text::new();
    counted(&mut text, b"length=", f.size as u64);
    end_lines(&mut text, f);
    count_lines(&mut text, f);
    time_lines(&mut text, f.summary);
    gap_lines(&mut text, f.summary);
    rate_line(&mut text, f.rate);
    text
}

fn yes_no(text: &mut Text, test: bool)
    ensures { text.new ≡ put text.old (yes_no test) }
{
    if test {
        text.literal(b"yes");
    } else {
        text.literal(b"no");
    }
}

#[tactic(auto, using(text::proofs::Put::puts), unfolding(crate::specs::Texts::overflow_told))]
fn overflow_told(text: &mut Text, v: Verdict)
    ensures { text.new ≡ put text.old (overflow_told v) }
{
    if v.overflow == 0 {
        text.literal(b"yes");
        return;
    }
    text.literal(b"no overflow_store=");
    text.decimal(v.overflow);
    text.literal(b" overflow_tick=");
    text.decimal(v.overflow_tick);
}

// What an option is told by.
pub fn option_line(option: u32, v: Verdict) -> Text
    ensures { result ≡ option_line option v }
{
    let mut text = Text::new();
    text.literal(b"option=");
    text.decimal(u64::from(option));
    text.literal(b" backlog=");
    text.decimal(v.backlog);
    text.literal(b" grows=");
    yes_no(&mut text, v.grows);
    text.literal(b" fits=");
    overflow_told(&mut text, v);
    text.literal(b"\n");
    text
}

fn choice_told(text: &mut Text, choice: Option<u32>)
    ensures { text.new ≡ put text.old (choice_told choice) }
{
    match choice {
        Some(option) => text.decimal(u64::from(option)),
        None => text.literal(b"none"),
    }
}

// The choice, and what the claim covers.
pub fn last_lines(f: &Figures) -> Text
    ensures { result ≡ last_lines f.now }
{
    let mut text = Text::new();
    text.literal(b"choice=");
    choice_told(&mut text, f.choice);
    text.literal(b"\n");
    text.literal(b"claim=this image from address 0 with zero registers and flags, for ");
    text.decimal(f.cycles);
    text.literal(b" cycles; no other input\n");
    text
}
