// The whole run: each option's level in the buffer against time, and what the buffer holds.
use crate::drawing::Drawing;
use crate::labels::{Labels, MOST};
use crate::marks::named;
use crate::panel::Panel;
use crate::span::Span;
use crate::svg::{Point, end_group, end_points, end_text, line, option_points, text, vertex};
use crate::time::ticks_and_time;
use crate::{Picture, Run};

const LEAST_STEPS: usize = 16;

#[derive(Drop)]
struct Levels<'a> {
    picture: &'a Picture,
    run: &'a Run<'a>,
    panel: Panel,
    // Slices to a step of the lines.
    slices: usize,
}

impl Levels<'_> {
    fn steps(&self) -> usize {
        self.picture.slices.begun.div_ceil(self.slices.max(1))
    }

    fn begins(&self, step: usize) -> u64 {
        self.picture.slices.begins(step.saturating_mul(self.slices))
    }

    fn bits(&self, step: usize, option: usize) -> u64 {
        let first = step.saturating_mul(self.slices);
        let mut greatest = 0u64;
        for slice in first..first.saturating_add(self.slices) {
            greatest = greatest.max(self.picture.slices.level(slice, option));
        }
        self.picture.link.bits(greatest)
    }

    // A level above the panel leaves it, and does not run along its edge.
    fn y(&self, bits: u64) -> u64 {
        if bits > self.panel.up.to {
            self.panel.top.saturating_sub(50)
        } else {
            self.panel.y(bits)
        }
    }

    fn option(&self, out: &mut Drawing, option: usize) {
        let mut y = self.y(self.bits(0, option));
        option_points(out, option, self.run.choice);
        vertex(
            out,
            Point {
                x: self.panel.left,
                y,
            },
        );
        for step in 1..self.steps() {
            let next = self.y(self.bits(step, option));
            if next != y {
                let x = self.panel.x(self.begins(step));
                vertex(out, Point { x, y });
                vertex(out, Point { x, y: next });
                y = next;
            }
        }
        vertex(
            out,
            Point {
                x: self.panel.right(),
                y,
            },
        );
        end_points(out);
    }

    fn chosen(&self, out: &mut Drawing) {
        if let Some(option) = self.run.choice {
            self.option(out, option);
        }
    }

    // The choice's thick line first, so that it hides no other; and last where they would hide it.
    fn lines(&self, out: &mut Drawing) {
        let many = self.run.outcomes.len() > MOST;
        self.panel.clip(out, "run");
        if !many {
            self.chosen(out);
        }
        for option in 0..self.run.outcomes.len() {
            if self.run.choice != Some(option) {
                self.option(out, option);
            }
        }
        if many {
            self.chosen(out);
        }
        end_group(out);
    }

    fn full_line(&self, out: &mut Drawing, y: u64) {
        let left = Point {
            x: self.panel.left,
            y,
        };
        let right = Point {
            x: self.panel.right(),
            y,
        };
        line(out, "full", left, right);
    }

    // What the buffer holds, as a line, or said where it lies above the panel.
    fn full(&self, out: &mut Drawing) {
        let holds = self.picture.link.holds();
        let inside = holds <= self.panel.up.to;
        let y = self.panel.y(holds);
        if inside {
            self.full_line(out, y);
        }
        let below = if inside {
            y.saturating_sub(50)
        } else {
            y.saturating_add(150)
        };
        text(
            out,
            "end small halo",
            Point {
                x: self.panel.right().saturating_sub(60),
                y: below,
            },
        );
        out.put("the buffer holds ");
        out.grouped(holds);
        out.put(if inside { " bits" } else { " bits, far above" });
        end_text(out);
    }

    fn marks(&self, out: &mut Drawing) {
        let holds = self.picture.link.holds();
        let mut row = 0u64;
        for outcome in self.run.outcomes {
            if outcome.overflow_store > 0 {
                named(
                    out,
                    &self.panel,
                    self.panel.point(outcome.overflow_tick, holds),
                    outcome.rate,
                    row,
                );
                row = row.saturating_add(1);
            }
        }
    }

    // The slowest is the highest.
    fn labels(&self, out: &mut Drawing) {
        let mut labels = Labels::new();
        if self.run.outcomes.len() > MOST {
            return;
        }
        let last = self.steps().saturating_sub(1);
        for (option, outcome) in self.run.outcomes.iter().enumerate() {
            let bits = self.bits(last, option);
            labels.put(outcome.rate, self.panel.y(bits), bits > self.panel.up.to);
        }
        labels.write(out, &self.panel);
    }

    fn heading(&self, out: &mut Drawing) {
        let width = self.picture.slices.width.saturating_mul(self.slices as u64);
        self.panel.heading(out);
        out.put("The whole run: the greatest level in the buffer");
        if width > 1 {
            out.put(" in each ");
            ticks_and_time(out, width, self.picture.link.clock);
        }
        end_text(out);
    }

    fn write(&self, out: &mut Drawing) {
        self.heading(out);
        self.panel.time_axes(out, self.picture.link.clock);
        self.panel.bits_axis(out);
        self.panel.up_name(out, "bits in the buffer");
        self.lines(out);
        self.full(out);
        self.panel.frame(out);
        self.marks(out);
        self.labels(out);
    }
}

// So many slices to a step that each has a burst in it, and the lines tell the bursts' heights and not each rise and fall. One where that
// would leave too few steps.
fn slices_to_a_step(picture: &Picture) -> usize {
    let gap = picture.gaps.greatest.saturating_mul(5) / 4;
    let width = picture.slices.width;
    let mut slices = 1usize;
    for _ in 0..9 {
        if width.saturating_mul(slices as u64) < gap {
            slices = slices.saturating_mul(2);
        }
    }
    if picture.slices.begun / slices.max(1) < LEAST_STEPS {
        1
    } else {
        slices
    }
}

// The greatest backlog of those that fit; without those that grow, or with them.
fn greatest(run: &Run<'_>, growing: bool) -> u64 {
    let mut greatest = 0u64;
    for outcome in run.outcomes {
        if outcome.fits && (growing || !outcome.grows) {
            greatest = greatest.max(outcome.backlog);
        }
    }
    greatest
}

// Up to above the buffer, where something overflows or comes near it. Else up to the greatest backlog, but only so far that the steady ones
// can be told from the ground.
fn up(run: &Run<'_>, holds: u64) -> Span {
    let overflows = run.outcomes.iter().any(|outcome| !outcome.fits);
    let most = greatest(run, true);
    let steady = greatest(run, false);
    let to = if overflows {
        holds.saturating_add(holds / 4)
    } else if holds / 2 <= most {
        holds.saturating_add(holds / 8)
    } else if steady > 0 {
        most.saturating_add(most / 8).min(steady.saturating_mul(3))
    } else {
        most.saturating_add(most / 8)
    };
    Span {
        from: 0,
        to: to.max(8),
    }
}

pub fn write(out: &mut Drawing, picture: &Picture, run: &Run<'_>, place: Panel) {
    let mut panel = place;
    let from = picture.slices.begins(0);
    panel.across = Span {
        from,
        to: picture.last.max(from.saturating_add(1)),
    };
    panel.up = up(run, picture.link.holds());
    let slices = slices_to_a_step(picture);
    let levels = Levels {
        picture,
        run,
        panel,
        slices,
    };
    levels.write(out);
}
