// A panel: a frame, its axes, and where in it a number lies. Lengths are tenths of a pixel.
ghost use Rattle.std.specs.Prelude.{◌≡◌};
ghost use Rattle.picture.specs.Scale.{bottom, x, y};

use crate::drawing::Drawing;
use crate::round::{step, up};
use crate::span::Span;
use crate::svg::{Point, end_text, line, rectangle, text, words};
use crate::time::{nanoseconds, ticks, time};

const MOST_STEPS: u64 = 8;

#[derive(Clone, Copy)]
pub struct Panel {
    pub left: u64,
    pub top: u64,
    pub width: u64,
    pub height: u64,
    pub across: Span,
    pub up: Span,
}

impl Panel {
    pub fn bottom(&self) -> u64
        ensures { result ≡ bottom self.now }
    {
        self.top.saturating_add(self.height)
    }

    pub fn right(&self) -> u64 {
        self.left.saturating_add(self.width)
    }

    pub fn x(&self, value: u64) -> u64
        ensures { result ≡ x self.now value }
    {
        self.left
            .saturating_add(self.across.part(value, self.width))
    }

    pub fn y(&self, value: u64) -> u64
        ensures { result ≡ y self.now value }
    {
        self.bottom()
            .saturating_sub(self.up.part(value, self.height))
    }

    pub fn point(&self, across: u64, up: u64) -> Point {
        Point {
            x: self.x(across),
            y: self.y(up),
        }
    }

    pub fn corner(&self) -> Point {
        Point {
            x: self.left,
            y: self.top,
        }
    }

    // What is drawn up to the group's end is cut off at the frame.
    pub fn clip(&self, out: &mut Drawing, name: &str) {
        out.put("<clipPath id=\"");
        out.put(name);
        out.put("\">");
        self.frame(out);
        out.put("</clipPath>\n<g clip-path=\"url(#");
        out.put(name);
        out.put(")\">\n");
    }

    pub fn frame(&self, out: &mut Drawing) {
        rectangle(out, "frame", self.corner(), self.width, self.height);
    }

    pub fn heading(&self, out: &mut Drawing) {
        let y = self.top.saturating_sub(340);
        text(out, "head", Point { x: self.left, y });
    }

    // A line of the grid across the panel, with its label on the left.
    pub fn level(&self, out: &mut Drawing, y: u64, label: u64) {
        line(
            out,
            "grid",
            Point { x: self.left, y },
            Point { x: self.right(), y },
        );
        text(
            out,
            "end",
            Point {
                x: self.left.saturating_sub(50),
                y: y.saturating_add(35),
            },
        );
        out.grouped(label);
        end_text(out);
    }

    // One from top to bottom, with its label below.
    pub fn upright(&self, out: &mut Drawing, x: u64, label: u64) {
        let bottom = self.bottom();
        line(
            out,
            "grid",
            Point { x, y: self.top },
            Point { x, y: bottom },
        );
        line(
            out,
            "tick",
            Point { x, y: bottom },
            Point {
                x,
                y: bottom.saturating_add(40),
            },
        );
        text(
            out,
            "mid",
            Point {
                x,
                y: bottom.saturating_add(150),
            },
        );
        out.grouped(label);
        end_text(out);
    }

    // What the numbers on the left are.
    pub fn up_name(&self, out: &mut Drawing, name: &str) {
        out.put("<text class=\"mid\" transform=\"translate(18 ");
        out.pixels(self.top.saturating_add(self.height / 2));
        out.put(") rotate(-90)\">");
        out.put(name);
        end_text(out);
    }

    pub fn across_name(&self, out: &mut Drawing, name: &str) {
        let x = self.left.saturating_add(self.width / 2);
        let y = self.bottom().saturating_add(290);
        words(out, "mid", Point { x, y }, name);
    }

    pub fn bits_axis(&self, out: &mut Drawing) {
        let step = step(self.up.length(), MOST_STEPS);
        let mut value = up(self.up.from, step);
        for _ in 0..10 {
            if value <= self.up.to {
                self.level(out, self.y(value), value);
            }
            value = value.saturating_add(step);
        }
    }

    fn ticks_axis(&self, out: &mut Drawing) {
        let step = step(self.across.length(), MOST_STEPS);
        let mut value = up(self.across.from, step);
        for _ in 0..10 {
            if value <= self.across.to {
                self.upright(out, self.x(value), value);
            }
            value = value.saturating_add(step);
        }
        self.across_name(out, "ticks from the start");
    }

    fn clock_label(&self, out: &mut Drawing, at: u64, clock: u64) {
        let x = self.x(ticks(at, clock));
        let y = self.top.saturating_sub(40);
        line(out, "tick", Point { x, y }, Point { x, y: self.top });
        text(
            out,
            "mid small quiet",
            Point {
                x,
                y: self.top.saturating_sub(80),
            },
        );
        time(out, at);
        end_text(out);
    }

    // Along the upper edge, the same time by the clock.
    fn clock_axis(&self, out: &mut Drawing, clock: u64) {
        let to = nanoseconds(self.across.to, clock);
        let from = nanoseconds(self.across.from, clock);
        let step = step(to.saturating_sub(from), MOST_STEPS);
        let mut value = up(from, step);
        for _ in 0..10 {
            if value <= to {
                self.clock_label(out, value, clock);
            }
            value = value.saturating_add(step);
        }
    }

    pub fn time_axes(&self, out: &mut Drawing, clock: u64) {
        self.ticks_axis(out);
        self.clock_axis(out, clock);
    }
}
