// Ticks as seconds, by the clock.
ghost use Rattle.std.specs.Prelude.{◌≡◌};
ghost use Rattle.picture.specs.Scale.{nanoseconds, ticks};

use crate::drawing::Drawing;

const SECOND: u64 = 1_000_000_000;

pub fn nanoseconds(ticks: u64, clock: u64) -> u64
    ensures { result ≡ nanoseconds ticks clock }
{
    ticks.saturating_mul(SECOND) / clock.max(1)
}

pub fn ticks(nanoseconds: u64, clock: u64) -> u64
    ensures { result ≡ ticks nanoseconds clock }
{
    nanoseconds.saturating_mul(clock) / SECOND
}

// Three digits after the point, without the zeros at their end.
fn part(out: &mut Drawing, thousandths: u64) {
    if thousandths == 0 {
        return;
    }
    out.put(".");
    out.decimal(thousandths / 100);
    if thousandths % 100 > 0 {
        out.decimal(thousandths / 10 % 10);
    }
    if thousandths % 10 > 0 {
        out.decimal(thousandths % 10);
    }
}

fn in_unit(out: &mut Drawing, time: u64, unit: u64, name: &str) {
    let unit = unit.max(1);
    out.decimal(time / unit);
    part(out, (time % unit).saturating_mul(1000) / unit);
    out.put(name);
}

// In the greatest unit of which there is a whole one.
pub fn time(out: &mut Drawing, nanoseconds: u64) {
    match nanoseconds {
        0 => out.put("0"),
        1..1_000 => in_unit(out, nanoseconds, 1, " ns"),
        1_000..1_000_000 => in_unit(out, nanoseconds, 1_000, " &#181;s"),
        1_000_000..1_000_000_000 => in_unit(out, nanoseconds, 1_000_000, " ms"),
        _ => in_unit(out, nanoseconds, SECOND, " s"),
    }
}

// So many ticks, and how long that is.
pub fn ticks_and_time(out: &mut Drawing, ticks: u64, clock: u64) {
    out.grouped(ticks);
    out.put(" ticks (");
    time(out, nanoseconds(ticks, clock));
    out.put(")");
}
