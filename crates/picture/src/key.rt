// What the lines are, and how each option came out.
use crate::drawing::Drawing;
use crate::marks::cross;
use crate::svg::{
    Point, end_points, end_text, line, option_points, points, rectangle, text, vertex, words,
};
use crate::time::{nanoseconds, time};
use crate::{Outcome, Picture, Run};

const ROW: u64 = 165;

const LEFT: u64 = 900;

// Where the columns stand; numbers end there.
const OPTION: u64 = 2300;

const CHOICE: u64 = 2450;

const BACKLOG: u64 = 4300;

const GROWS: u64 = 4600;

const FITS: u64 = 5200;

const OVERFLOW: u64 = 5700;

fn columns(out: &mut Drawing, y: u64) {
    words(out, "name end", Point { x: OPTION, y }, "option");
    words(out, "name end", Point { x: BACKLOG, y }, "backlog");
    words(out, "name", Point { x: GROWS, y }, "grows");
    words(out, "name", Point { x: FITS, y }, "fits");
    words(out, "name", Point { x: OVERFLOW, y }, "first overflow");
}

fn sample(out: &mut Drawing, option: usize, choice: Option<usize>, y: u64) {
    let y = y.saturating_sub(40);
    option_points(out, option, choice);
    vertex(out, Point { x: LEFT, y });
    vertex(out, Point { x: 1500, y });
    end_points(out);
}

fn said(yes: bool) -> &'static str {
    if yes { "yes" } else { "no" }
}

fn figures(out: &mut Drawing, outcome: Outcome, y: u64) {
    text(out, "end", Point { x: OPTION, y });
    out.grouped(u64::from(outcome.rate));
    out.put(" kb/s");
    end_text(out);
    text(out, "end", Point { x: BACKLOG, y });
    out.grouped(outcome.backlog);
    out.put(" bits");
    end_text(out);
    words(out, "", Point { x: GROWS, y }, said(outcome.grows));
    words(out, "", Point { x: FITS, y }, said(outcome.fits));
}

fn overflow(out: &mut Drawing, outcome: Outcome, clock: u64, y: u64) {
    if outcome.overflow_store == 0 {
        return;
    }
    text(out, "", Point { x: OVERFLOW, y });
    out.put("store ");
    out.grouped(outcome.overflow_store);
    out.put(", tick ");
    out.grouped(outcome.overflow_tick);
    out.put(" (");
    time(out, nanoseconds(outcome.overflow_tick, clock));
    out.put(")");
    end_text(out);
}

fn row(out: &mut Drawing, picture: &Picture, run: &Run<'_>, option: usize, y: u64) {
    let outcome = run.outcome(option);
    sample(out, option, run.choice, y);
    figures(out, outcome, y);
    overflow(out, outcome, picture.link.clock, y);
    if run.choice == Some(option) {
        words(out, "name", Point { x: CHOICE, y }, "the choice");
    }
}

fn stairs(out: &mut Drawing, y: u64) {
    points(out, "polyline", "stairs");
    vertex(out, Point { x: LEFT, y });
    vertex(out, Point { x: 1100, y });
    vertex(
        out,
        Point {
            x: 1100,
            y: y.saturating_sub(40),
        },
    );
    vertex(
        out,
        Point {
            x: 1300,
            y: y.saturating_sub(40),
        },
    );
    vertex(
        out,
        Point {
            x: 1300,
            y: y.saturating_sub(80),
        },
    );
    vertex(
        out,
        Point {
            x: 1500,
            y: y.saturating_sub(80),
        },
    );
    end_points(out);
    words(out, "", Point { x: 1600, y }, "bits handed over");
}

fn band(out: &mut Drawing, picture: &Picture, rate: u32, y: u64) {
    let top = y.saturating_sub(90);
    rectangle(out, "band", Point { x: 2900, y: top }, 600, 100);
    line(
        out,
        "rim",
        Point { x: 2900, y: top },
        Point { x: 3500, y: top },
    );
    text(out, "", Point { x: 3600, y });
    out.put("what the buffer holds at ");
    out.grouped(u64::from(rate));
    out.put(" kb/s: ");
    out.grouped(picture.link.holds());
    out.put(" bits");
    end_text(out);
}

fn signs(out: &mut Drawing, picture: &Picture, run: &Run<'_>, y: u64) {
    stairs(out, y);
    if let Some(option) = run.banded() {
        band(out, picture, run.outcome(option).rate, y);
    }
    cross(
        out,
        Point {
            x: 7300,
            y: y.saturating_sub(40),
        },
    );
    words(out, "", Point { x: 7450, y }, "an option's first overflow");
}

// How far down it goes.
pub fn height(options: usize) -> u64 {
    ROW.saturating_mul((options as u64).saturating_add(2))
}

pub fn write(out: &mut Drawing, picture: &Picture, run: &Run<'_>, top: u64) {
    let mut y = top;
    columns(out, y);
    for option in 0..run.outcomes.len() {
        y = y.saturating_add(ROW);
        row(out, picture, run, option, y);
    }
    signs(out, picture, run, y.saturating_add(ROW + 30));
}
