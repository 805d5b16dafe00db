// The files that are asked for. Each is made before the run, so that a long run is not lost to a name that cannot be written.
use crate::arguments::Request;
use crate::gaps::Gaps;
use crate::plot::{Came, Plot};
use crate::refusal::Refusal;
use std::io::{self, ErrorKind};

#[derive(Drop)]
pub struct Files {
    gaps: Option<Gaps>,
    plot: Option<Plot>,
}

fn why(error: &io::Error) -> &'static str {
    match error.kind() {
        ErrorKind::NotFound | ErrorKind::NotADirectory => ": there is no such folder",
        ErrorKind::IsADirectory => ": it is a folder",
        ErrorKind::PermissionDenied => ": permission denied",
        ErrorKind::StorageFull => ": the disk is full",
        ErrorKind::OutOfMemory => ": there is not enough memory",
        _ => ": writing failed",
    }
}

fn refused<'a>(file: Option<&'a str>, error: &io::Error) -> Refusal<'a> {
    Refusal::named("cannot write ", file.unwrap_or(""), why(error))
}

fn gaps<'a>(rt: &HostRuntime, request: &Request<'a>) -> Result<Option<Gaps>, Refusal<'a>> {
    let Some(file) = request.gaps else {
        return Ok(None);
    };
    match Gaps::create(rt, file) {
        Ok(gaps) => Ok(Some(gaps)),
        Err(error) => Err(refused(request.gaps, &error)),
    }
}

fn plot<'a>(rt: &HostRuntime, request: &Request<'a>) -> Result<Option<Plot>, Refusal<'a>> {
    let Some(file) = request.plot else {
        return Ok(None);
    };
    match Plot::create(rt, file, request) {
        Ok(plot) => Ok(Some(plot)),
        Err(error) => Err(refused(request.plot, &error)),
    }
}

impl Files {
    pub fn create<'a>(rt: &HostRuntime, request: &Request<'a>) -> Result<Files, Refusal<'a>> {
        Ok(Files {
            gaps: gaps(rt, request)?,
            plot: plot(rt, request)?,
        })
    }

    // Nothing is to be written.
    pub fn none(&self) -> bool {
        self.gaps.is_none() && self.plot.is_none()
    }

    // Each store's levels are looked at.
    pub fn draws(&self) -> bool {
        self.plot.is_some()
    }

    // The next store, and each option's level after it.
    pub fn store<'a>(
        &mut self,
        request: &Request<'a>,
        store: Store,
        levels: &[u64],
    ) -> Result<(), Refusal<'a>> {
        if let Some(gaps) = &mut self.gaps
            && let Err(error) = gaps.store(store.cycle, store.tick, store.address, store.bits)
        {
            return Err(refused(request.gaps, &error));
        }
        if let Some(plot) = &mut self.plot
            && plot.store(store.tick, store.bits, levels).is_err()
        {
            return Err(Refusal::words("there is not enough memory for the picture"));
        }
        Ok(())
    }

    pub fn finish<'a>(
        &mut self,
        rt: &HostRuntime,
        request: &Request<'a>,
        came: &Came<'_>,
    ) -> Result<(), Refusal<'a>> {
        if let Some(gaps) = &mut self.gaps
            && let Err(error) = gaps.flush()
        {
            return Err(refused(request.gaps, &error));
        }
        if let Some(plot) = &mut self.plot
            && let Err(error) = plot.write(rt, request, came)
        {
            return Err(refused(request.plot, &error));
        }
        Ok(())
    }

    // After a refusal: a part of a list would look like all of it.
    pub fn clear(&mut self) {
        if let Some(gaps) = &mut self.gaps {
            gaps.clear();
        }
        if let Some(plot) = &mut self.plot {
            plot.clear();
        }
    }
}

#[derive(Clone, Copy)]
pub struct Store {
    pub cycle: u64,
    pub tick: u64,
    pub address: u32,
    pub bits: u64,
}
