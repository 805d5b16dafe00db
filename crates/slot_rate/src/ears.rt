// Who is told of the run as it goes: each store goes to the files with every option's level after it, and standard error learns how far the run is.
use crate::arguments::Request;
use crate::files::{self, Files};
use crate::levels::Levels;
use crate::plot::Came;
use crate::progress::{STEP, tell};
use crate::refusal::Refusal;
use link::Store;
use rate::Listener;

#[derive(Drop)]
pub struct Ears<'r, 'a> {
    rt: &'r HostRuntime,
    request: &'r Request<'a>,
    files: Files,
    // Of the picture alone.
    levels: Levels,
    // The cycles done.
    pub cycles: u64,
    // The first one; then nothing more is written.
    refusal: Option<Refusal<'a>>,
}

impl<'r, 'a> Ears<'r, 'a> {
    pub fn new(rt: &'r HostRuntime, request: &'r Request<'a>) -> Result<Ears<'r, 'a>, Refusal<'a>> {
        Ok(Ears {
            rt,
            request,
            files: Files::create(rt, request)?,
            levels: Levels::new(),
            cycles: 0,
            refusal: None,
        })
    }

    fn store(&mut self, store: &Store) -> Result<(), Refusal<'a>> {
        let request = self.request;
        if self.files.draws() {
            self.levels.add(request, *store);
        }
        let told = files::Store {
            cycle: store.cycle,
            tick: store.tick,
            address: store.address,
            bits: 8 * u64::from(store.bytes),
        };
        let levels = self.levels.first(request.options.count);
        self.files.store(request, told, levels)
    }

    fn stores(&mut self, stores: &[Store]) -> Result<(), Refusal<'a>> {
        for store in stores {
            self.store(store)?;
        }
        Ok(())
    }

    // A line each so many cycles, while more are to come.
    fn tell(&mut self, cycles: u64) {
        let before = self.cycles / STEP;
        self.cycles = cycles;
        let now = cycles / STEP;
        if now > before && cycles < self.request.cycles {
            tell(self.rt, now * STEP, self.request.cycles);
        }
    }

    // The run can't be stopped from here: after a refusal it goes on in silence.
    fn hear(&mut self, stores: &[Store], cycles: u64) {
        self.tell(cycles);
        if self.files.none() || self.refusal.is_some() {
            return;
        }
        if let Err(refusal) = self.stores(stores) {
            self.refusal = Some(refusal);
        }
    }

    pub fn finish(&mut self, came: &Came<'_>) -> Result<(), Refusal<'a>> {
        if let Some(refusal) = self.refusal {
            return Err(refusal);
        }
        self.files.finish(self.rt, self.request, came)
    }

    pub fn clear(&mut self) {
        self.files.clear();
    }
}

impl Listener for Ears<'_, '_> {
    fn hear(&mut self, stores: &[Store], cycles: u64) {
        Ears::hear(self, stores, cycles);
    }
}
