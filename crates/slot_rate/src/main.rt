// The rate of an image: which option to tick. Reads the arguments and the image, runs it, writes the files and then the figures.
// Status 0 with a choice, 1 without one; 2 with one line on standard error that says why, and nothing on standard output.
#![tactic(auto)]

mod arguments;
mod ears;
mod files;
mod gaps;
mod grouped;
mod image;
mod levels;
mod numbers;
mod options;
mod outcomes;
mod plot;
mod progress;
mod refusal;
mod stopped;
mod window;

use arguments::Request;
use ears::Ears;
use outcomes::{outcomes, place};
use plot::Came;
use rate::Figures;
use rate::answer::rate;
use rate::told::told;
use refusal::{Detail, Refusal, line};
use std::env;
use std::io::Write;
use std::process::ExitCode;
use stopped::refused;

fn asked(request: &Request<'_>) -> rate::Request {
    rate::Request {
        from: request.window.from,
        to: request.window.to,
        clock: request.clock,
        options: request.options.rates,
        count: request.options.count,
        words: request.words,
        cycles: request.cycles,
        end: request.end,
    }
}

// The figures, all at once.
fn written<'a>(rt: &HostRuntime, figures: &[u8], status: u8) -> Result<ExitCode, Refusal<'a>> {
    match rt.stdout().write_all(figures) {
        Ok(()) => Ok(ExitCode::from(status)),
        Err(_) => Err(Refusal::words("the output could not be written")),
    }
}

// The files come before the first figure.
fn tell<'a>(
    rt: &HostRuntime,
    request: &Request<'a>,
    figures: &Figures,
    ears: &mut Ears<'_, 'a>,
) -> Result<ExitCode, Refusal<'a>> {
    let outcomes = outcomes(request, figures);
    let came = Came {
        cycles: figures.cycles,
        outcomes: outcomes.get(..request.options.count).unwrap_or(&[]),
        choice: place(request, figures),
    };
    ears.finish(&came)?;
    let Ok(text) = told(rt.alloc(), &asked(request), figures) else {
        return Err(Refusal::words("there is not enough memory for the figures"));
    };
    written(rt, text.as_slice(), u8::from(figures.choice.is_none()))
}

fn run<'a>(
    rt: &HostRuntime,
    request: &Request<'a>,
    image: &mut [u8],
    ears: &mut Ears<'_, 'a>,
) -> Result<ExitCode, Refusal<'a>> {
    match rate(asked(request), image, ears) {
        Ok(figures) => tell(rt, request, &figures, ears),
        Err(refusal) => Err(refused(refusal, request.end, ears.cycles)),
    }
}

fn watched<'a>(
    rt: &HostRuntime,
    request: &Request<'a>,
    image: &mut [u8],
) -> Result<ExitCode, Refusal<'a>> {
    let mut ears = Ears::new(rt, request)?;
    let ran = run(rt, request, image, &mut ears);
    if ran.is_err() {
        ears.clear();
    }
    ran
}

fn fits<'a>(request: &Request<'a>, length: usize) -> Result<(), Refusal<'a>> {
    if u64::from(request.window.to) <= length as u64 {
        return Ok(());
    }
    let refusal = Refusal::named(
        "--link ",
        request.link,
        " ends beyond the image, which has ",
    );
    Err(refusal.with(Detail::Bytes(length as u64)))
}

fn answer<'a>(rt: &HostRuntime, arguments: &'a [String]) -> Result<ExitCode, Refusal<'a>> {
    let request = arguments::read(arguments)?;
    let mut memory = [0u8; 65536];
    let length = image::read(rt, request.image, &mut memory)?;
    fits(&request, length)?;
    match memory.get_mut(..length) {
        Some(image) => watched(rt, &request, image),
        None => Err(Refusal::words("the image is too long")),
    }
}

fn refuse(rt: &HostRuntime, refusal: Refusal<'_>) -> ExitCode {
    let _ = rt.stderr().write_all(line(refusal).as_slice());
    ExitCode::from(2)
}

// The words after the program's name.
fn given(rt: &HostRuntime) -> std::io::Result<Vec<String>> {
    let mut arguments = Vec::new(rt.alloc());
    for argument in env::args(rt)?.skip(1) {
        arguments.push(argument)?;
    }
    Ok(arguments)
}

fn main(rt: HostRuntime) -> ExitCode {
    let Ok(arguments) = given(&rt) else {
        return refuse(&rt, Refusal::words("the arguments are no UTF-8 text"));
    };
    match answer(&rt, arguments.as_slice()) {
        Ok(code) => code,
        Err(refusal) => refuse(&rt, refusal),
    }
}
