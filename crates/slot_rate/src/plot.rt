// The file of --plot: the picture of the run.
use crate::arguments::Request;
use crate::image::shown;
use picture::{Outcome, Picture, Run};
use std::alloc::AllocError;
use std::fs::File;
use std::io::{self, Write};

#[derive(Drop)]
pub struct Plot {
    file: File,
    picture: Picture,
}

// A file's name without its folders.
fn last_part(file: &str) -> &str {
    match file.rsplit_once('/') {
        Some((_, name)) => name,
        None => file,
    }
}

impl Plot {
    pub fn create(rt: &HostRuntime, file: &str, request: &Request<'_>) -> io::Result<Plot> {
        let options = request
            .options
            .rates
            .get(..request.options.count)
            .unwrap_or(&[]);
        Ok(Plot {
            file: File::create(rt, file)?,
            picture: Picture::new(rt.alloc(), options, request.clock, request.words)?,
        })
    }

    pub fn store(&mut self, tick: u64, bits: u64, levels: &[u64]) -> Result<(), AllocError> {
        self.picture.store(tick, bits, levels)
    }

    pub fn write(
        &mut self,
        rt: &HostRuntime,
        request: &Request<'_>,
        came: &Came<'_>,
    ) -> io::Result<()> {
        let run = Run {
            file: last_part(shown(request.image)),
            from: request.window.from,
            to: request.window.to,
            cycles: came.cycles,
            outcomes: came.outcomes,
            choice: came.choice,
        };
        let drawing = self.picture.draw(rt.alloc(), &run)?;
        self.file.write_all(drawing.as_slice())
    }

    pub fn clear(&mut self) {
        let _ = self.file.set_len(0);
    }
}

// What the run came to: its cycles, each option's outcome, and the place of the one chosen.
#[derive(Drop)]
pub struct Came<'a> {
    pub cycles: u64,
    pub outcomes: &'a [Outcome],
    pub choice: Option<usize>,
}
