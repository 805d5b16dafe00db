// The command line.
ghost use Rattle.std.specs.Prelude.{◌≤◌, IfOk};

use crate::numbers::{hexadecimal, within};
use crate::options::{Options, read_options};
use crate::refusal::Refusal;
use crate::window::{Window, read_window};

const MOST_CLOCK: u64 = 1_000_000_000;

const MOST_WORDS: u64 = 1_048_576;

const MOST_CYCLES: u64 = 500_000_000;

const CYCLES: u64 = 100_000_000;

// What is asked for.
#[derive(Clone, Copy)]
pub struct Request<'a> {
    // A file, or - for standard input.
    pub image: &'a str,
    // As it was given, and what it says.
    pub link: &'a str,
    pub window: Window,
    // Ticks a second.
    pub clock: u64,
    pub options: Options,
    pub words: u64,
    pub cycles: u64,
    // The one address at which a stop is accepted.
    pub end: Option<u32>,
    pub gaps: Option<&'a str>,
    pub plot: Option<&'a str>,
    pub ghost clock_from: { 1 ≤ clock },
    pub ghost clock_to: { clock ≤ 1000000000 },
    pub ghost words_to: { words ≤ 1048576 },
    pub ghost cycles_to: { cycles ≤ 500000000 },
}

// Each option's word, as far as it is there.
#[derive(Clone, Copy)]
struct Words<'a> {
    image: Option<&'a str>,
    link: Option<&'a str>,
    clock: Option<&'a str>,
    options: Option<&'a str>,
    buffer: Option<&'a str>,
    cycles: Option<&'a str>,
    end: Option<&'a str>,
    gaps: Option<&'a str>,
    plot: Option<&'a str>,
}

// What an option is called, and its value.
#[derive(Clone, Copy)]
enum Name {
    Link,
    Clock,
    Options,
    Buffer,
    Cycles,
    End,
    Gaps,
    Plot,
}

fn name_of(word: &str) -> Option<Name> {
    match word {
        "--link" => Some(Name::Link),
        "--clock" => Some(Name::Clock),
        "--options" => Some(Name::Options),
        "--buffer" => Some(Name::Buffer),
        "--cycles" => Some(Name::Cycles),
        "--end" => Some(Name::End),
        "--gaps" => Some(Name::Gaps),
        "--plot" => Some(Name::Plot),
        _ => None,
    }
}

fn lacks(name: Name) -> &'static str {
    match name {
        Name::Link => "--link lacks its FROM-TO (--help)",
        Name::Clock => "--clock lacks its HZ (--help)",
        Name::Options => "--options lacks its rates (--help)",
        Name::Buffer => "--buffer lacks its WORDS (--help)",
        Name::Cycles => "--cycles lacks its number (--help)",
        Name::End => "--end lacks its ADDRESS (--help)",
        Name::Gaps => "--gaps lacks its FILE (--help)",
        Name::Plot => "--plot lacks its FILE (--help)",
    }
}

impl<'a> Words<'a> {
    fn none() -> Words<'a> {
        Words {
            image: None,
            link: None,
            clock: None,
            options: None,
            buffer: None,
            cycles: None,
            end: None,
            gaps: None,
            plot: None,
        }
    }

    fn at(&self, name: Name) -> Option<&'a str> {
        match name {
            Name::Link => self.link,
            Name::Clock => self.clock,
            Name::Options => self.options,
            Name::Buffer => self.buffer,
            Name::Cycles => self.cycles,
            Name::End => self.end,
            Name::Gaps => self.gaps,
            Name::Plot => self.plot,
        }
    }

    fn put(&mut self, name: Name, value: &'a str) {
        let value = Some(value);
        match name {
            Name::Link => self.link = value,
            Name::Clock => self.clock = value,
            Name::Options => self.options = value,
            Name::Buffer => self.buffer = value,
            Name::Cycles => self.cycles = value,
            Name::End => self.end = value,
            Name::Gaps => self.gaps = value,
            Name::Plot => self.plot = value,
        }
    }

    fn option(
        &mut self,
        word: &'a str,
        name: Name,
        value: Option<&'a str>,
    ) -> Result<(), Refusal<'a>> {
        if self.at(name).is_some() {
            return Err(Refusal::named("", word, " is given twice"));
        }
        match value {
            Some(value) if !value.starts_with("--") => {
                self.put(name, value);
                Ok(())
            }
            _ => Err(Refusal::words(lacks(name))),
        }
    }

    fn file(&mut self, word: &'a str) -> Result<(), Refusal<'a>> {
        if word.is_empty() {
            return Err(Refusal::words("the image's name is empty (--help)"));
        }
        if word != "-" && word.starts_with('-') {
            return Err(Refusal::named(
                "there is no option ",
                word,
                " (--help); a file has a folder before its name, as ./-x",
            ));
        }
        if self.image.is_some() {
            return Err(Refusal::named(
                "one image at a time, and ",
                word,
                " is a second one (--help)",
            ));
        }
        self.image = Some(word);
        Ok(())
    }
}

// The words after the program's name.
fn gathered<'a>(arguments: &'a [String]) -> Result<Words<'a>, Refusal<'a>> {
    let mut words = Words::none();
    let mut left = arguments.iter();
    for _ in 0..arguments.len() {
        let Some(word) = left.next() else {
            return Ok(words);
        };
        match name_of(word.as_str()) {
            Some(name) => words.option(
                word.as_str(),
                name,
                left.next().map(|value| value.as_str()),
            )?,
            None => words.file(word.as_str())?,
        }
    }
    Ok(words)
}

fn clock(word: &str) -> Result<u64, Refusal<'_>>
    ensures lower { IfOk result (λ n. 1 ≤ n) }
    ensures upper { IfOk result (λ n. n ≤ 1000000000) }
{
    match within(word, 1, MOST_CLOCK) {
        Some(clock) => Ok(clock),
        None => Err(Refusal::named(
            "--clock wants a whole number of ticks a second from 1 to 1,000,000,000, and not '",
            word,
            "'",
        )),
    }
}

fn buffer(word: Option<&str>) -> Result<u64, Refusal<'_>>
    ensures { IfOk result (λ n. n ≤ 1048576) }
{
    let Some(word) = word else {
        return Ok(1);
    };
    match within(word, 1, MOST_WORDS) {
        Some(words) => Ok(words),
        None => Err(Refusal::named(
            "--buffer wants a whole number of words from 1 to 1,048,576, and not '",
            word,
            "'",
        )),
    }
}

fn cycles(word: Option<&str>) -> Result<u64, Refusal<'_>>
    ensures { IfOk result (λ n. n ≤ 500000000) }
{
    let Some(word) = word else {
        return Ok(CYCLES);
    };
    match within(word, 1, MOST_CYCLES) {
        Some(cycles) => Ok(cycles),
        None => Err(Refusal::named(
            "--cycles wants a whole number from 1 to 500,000,000, and not '",
            word,
            "'",
        )),
    }
}

fn end(word: Option<&str>) -> Result<Option<u32>, Refusal<'_>> {
    let Some(word) = word else {
        return Ok(None);
    };
    match hexadecimal(word) {
        Some(address) => Ok(Some(address)),
        None => Err(Refusal::named(
            "--end wants a hexadecimal address up to FFFFFFFF, and not '",
            word,
            "'",
        )),
    }
}

// A file that is written has a name of its own.
fn written<'a>(
    word: Option<&'a str>,
    taken: &[Option<&str>],
) -> Result<Option<&'a str>, Refusal<'a>> {
    let Some(file) = word else {
        return Ok(None);
    };
    if file.is_empty() || file == "-" {
        return Err(Refusal::named("--gaps and --plot want a file's name, and not '", file, "'"));
    }
    for other in taken {
        if *other == Some(file) {
            return Err(Refusal::named(
                "",
                file,
                " is named twice, and one would be written over the other",
            ));
        }
    }
    Ok(Some(file))
}

fn needed<'a>(word: Option<&'a str>, missing: &'static str) -> Result<&'a str, Refusal<'a>> {
    match word {
        Some(word) => Ok(word),
        None => Err(Refusal::words(missing)),
    }
}

fn understood<'a>(words: Words<'a>) -> Result<Request<'a>, Refusal<'a>> {
    let image = needed(words.image, "no image is named (--help)")?;
    let link = needed(
        words.link,
        "--link FROM-TO is missing: the link buffer's byte addresses (--help)",
    )?;
    let hertz = needed(
        words.clock,
        "--clock HZ is missing: the slot's ticks a second (--help)",
    )?;
    let rates = needed(
        words.options,
        "--options A,B,.. is missing: the rates in kb/s to choose from (--help)",
    )?;
    Ok(Request {
        image,
        link,
        window: read_window(link)?,
        clock: clock(hertz)?,
        options: read_options(rates)?,
        words: buffer(words.buffer)?,
        cycles: cycles(words.cycles)?,
        end: end(words.end)?,
        gaps: written(words.gaps, &[words.image])?,
        plot: written(words.plot, &[words.image, words.gaps])?,
    })
}

pub fn read<'a>(arguments: &'a [String]) -> Result<Request<'a>, Refusal<'a>> {
    understood(gathered(arguments)?)
}
