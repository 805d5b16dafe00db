// From a number up to another, and where in it a number lies.
ghost use Rattle.std.specs.Prelude.{◌≡◌};
ghost use Rattle.picture.specs.Scale.{length, part, part_above};

#[derive(Clone, Copy)]
pub struct Span {
    pub from: u64,
    pub to: u64,
}

impl Span {
    pub fn length(&self) -> u64
        ensures { result ≡ length self.now }
    {
        self.to.saturating_sub(self.from)
    }

    // The part of `whole` that lies before `value`, which counts as the nearest number of the span.
    pub fn part(&self, value: u64, whole: u64) -> u64
        ensures { result ≡ part self.now value whole }
    {
        let inside = value.min(self.to).saturating_sub(self.from);
        inside.saturating_mul(whole) / self.length().max(1)
    }

    // The same of a number that may lie above the span, as far again.
    pub fn part_above(&self, value: u64, whole: u64) -> u64
        ensures { result ≡ part_above self.now value whole }
    {
        let inside = value
            .saturating_sub(self.from)
            .min(self.length().saturating_mul(2));
        inside.saturating_mul(whole) / self.length().max(1)
    }
}
