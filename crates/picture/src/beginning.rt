// The first stores: what was handed over, as stairs; what each option has carried away by then, as a line; and the buffer above one of them.
use crate::drawing::Drawing;
use crate::first::{First, Handed};
use crate::labels::{Labels, MOST};
use crate::marks::named;
use crate::panel::Panel;
use crate::span::Span;
use crate::svg::{Point, end_group, end_points, end_text, option_points, points, vertex};
use crate::{Link, Picture, Run};

#[derive(Drop)]
struct Beginning<'a> {
    picture: &'a Picture,
    run: &'a Run<'a>,
    panel: Panel,
    // Stores, counted from 0: from the first up to, and without, the second.
    from: usize,
    to: usize,
}

// An option's line from a store on: up to where its buffer is empty, if that comes before the next store, and from there level.
#[derive(Clone, Copy)]
struct Leg {
    tick: u64,
    carried: u64,
    empty: u64,
    all: u64,
    // At the next store, or at the panel's edge.
    end: u64,
    carried_then: u64,
}

// What a level leaves of all the bits.
fn carried(all: u64, level: u64, link: Link) -> u64 {
    all.saturating_sub(link.bits(level))
}

impl Beginning<'_> {
    fn end(&self, store: usize) -> u64 {
        let next = store.saturating_add(1);
        if next < self.to {
            self.picture.first.at(next).tick
        } else {
            self.panel.across.to
        }
    }

    fn leg(&self, option: usize, store: usize) -> Leg {
        let Handed { tick, bits } = self.picture.first.at(store);
        let level = self.picture.first.level(store, option);
        let drain = u64::from(self.run.outcome(option).rate)
            .saturating_mul(1000)
            .max(1);
        let end = self.end(store);
        let drained = drain.saturating_mul(end.saturating_sub(tick));
        Leg {
            tick,
            carried: carried(bits, level, self.picture.link),
            empty: tick.saturating_add(level.div_ceil(drain)),
            all: bits,
            end,
            carried_then: carried(bits, level.saturating_sub(drained), self.picture.link),
        }
    }

    fn stairs(&self, out: &mut Drawing) {
        let first = &self.picture.first;
        let mut bits = first.before(self.from).bits;
        points(out, "polyline", "stairs");
        vertex(out, self.panel.point(self.panel.across.from, bits));
        for store in self.from..self.to {
            let handed = first.at(store);
            vertex(out, self.panel.point(handed.tick, bits));
            bits = handed.bits;
            vertex(out, self.panel.point(handed.tick, bits));
        }
        vertex(out, self.panel.point(self.panel.across.to, bits));
        end_points(out);
    }

    fn option(&self, out: &mut Drawing, option: usize) {
        option_points(out, option, self.run.choice);
        for store in self.from..self.to {
            let leg = self.leg(option, store);
            vertex(out, self.panel.point(leg.tick, leg.carried));
            if leg.empty < leg.end {
                vertex(out, self.panel.point(leg.empty, leg.all));
            }
            vertex(out, self.panel.point(leg.end, leg.carried_then));
        }
        end_points(out);
    }

    // A point of the band, one panel lower than it is: so a place above the panel has a number as well.
    fn lowered(&self, tick: u64, bits: u64) -> Point {
        let panel = &self.panel;
        let up = panel.up.part_above(bits, panel.height);
        Point {
            x: panel.x(tick),
            y: panel
                .bottom()
                .saturating_add(panel.height)
                .saturating_sub(up),
        }
    }

    fn edge(&self, out: &mut Drawing, option: usize, above: u64) {
        for store in self.from..self.to {
            let leg = self.leg(option, store);
            vertex(
                out,
                self.lowered(leg.tick, leg.carried.saturating_add(above)),
            );
            if leg.empty < leg.end {
                vertex(out, self.lowered(leg.empty, leg.all.saturating_add(above)));
            }
            vertex(
                out,
                self.lowered(leg.end, leg.carried_then.saturating_add(above)),
            );
        }
    }

    fn edge_back(&self, out: &mut Drawing, option: usize, above: u64) {
        for back in 0..self.to.saturating_sub(self.from) {
            let leg = self.leg(option, self.to.saturating_sub(back).saturating_sub(1));
            vertex(
                out,
                self.lowered(leg.end, leg.carried_then.saturating_add(above)),
            );
            if leg.empty < leg.end {
                vertex(out, self.lowered(leg.empty, leg.all.saturating_add(above)));
            }
            vertex(
                out,
                self.lowered(leg.tick, leg.carried.saturating_add(above)),
            );
        }
    }

    fn band(&self, out: &mut Drawing, option: usize) {
        let holds = self.picture.link.holds();
        out.put("<g transform=\"translate(0 -");
        out.pixels(self.panel.height);
        out.put(")\">\n");
        points(out, "polygon", "band");
        self.edge(out, option, 0);
        self.edge_back(out, option, holds);
        end_points(out);
        points(out, "polyline", "rim");
        self.edge(out, option, holds);
        end_points(out);
        end_group(out);
    }

    fn marks(&self, out: &mut Drawing) {
        let mut row = 0u64;
        for outcome in self.run.outcomes {
            let store = outcome.overflow_store as usize;
            if store > self.from && store <= self.to {
                let handed = self.picture.first.before(store);
                named(
                    out,
                    &self.panel,
                    self.panel.point(handed.tick, handed.bits),
                    outcome.rate,
                    row,
                );
                row = row.saturating_add(1) % 4;
            }
        }
    }

    // The fastest is the highest.
    fn labels(&self, out: &mut Drawing) {
        let mut labels = Labels::new();
        let options = self.run.outcomes.len();
        if options > MOST {
            return;
        }
        for back in 0..options {
            let option = options.saturating_sub(back).saturating_sub(1);
            let leg = self.leg(option, self.to.saturating_sub(1));
            labels.put(
                self.run.outcome(option).rate,
                self.panel.y(leg.carried_then),
                false,
            );
        }
        labels.write(out, &self.panel);
    }

    fn heading(&self, out: &mut Drawing) {
        self.panel.heading(out);
        out.put("The beginning, stores ");
        out.grouped((self.from as u64).saturating_add(1));
        out.put(" to ");
        out.grouped(self.to as u64);
        out.put(" of ");
        out.grouped(self.picture.stores);
        out.put(": bits handed over, and carried away by each option");
        end_text(out);
    }

    fn chosen(&self, out: &mut Drawing) {
        if let Some(option) = self.run.choice {
            self.option(out, option);
        }
    }

    // The choice's thick line first, so that it hides no other; and last where they would hide it.
    fn lines(&self, out: &mut Drawing) {
        let many = self.run.outcomes.len() > MOST;
        self.panel.clip(out, "beginning");
        if let Some(option) = self.run.banded() {
            self.band(out, option);
        }
        self.stairs(out);
        if !many {
            self.chosen(out);
        }
        for option in 0..self.run.outcomes.len() {
            if self.run.choice != Some(option) {
                self.option(out, option);
            }
        }
        if many {
            self.chosen(out);
        }
        end_group(out);
    }

    fn write(&self, out: &mut Drawing) {
        self.heading(out);
        self.panel.time_axes(out, self.picture.link.clock);
        self.panel.bits_axis(out);
        self.panel.up_name(out, "bits");
        self.lines(out);
        self.panel.frame(out);
        self.marks(out);
        self.labels(out);
    }
}

// With some room before the first store and after the last.
fn across(first: &First, from: usize, to: usize) -> Span {
    let start = first.at(from).tick;
    let end = first.before(to).tick;
    let room = end.saturating_sub(start) / 40;
    Span {
        from: start.saturating_sub(room),
        to: end.saturating_add(room.max(1)),
    }
}

// From the least that any option has carried away up to a little above all bits.
fn up(picture: &Picture, from: usize, to: usize, options: usize) -> Span {
    let all = picture.first.at(from).bits;
    let last = picture.first.before(to).bits;
    let mut least = picture.first.before(from).bits;
    for option in 0..options {
        least = least.min(carried(all, picture.first.level(from, option), picture.link));
    }
    let room = last.saturating_sub(least) / 12;
    Span {
        from: least,
        to: last.saturating_add(room).saturating_add(1),
    }
}

// The panel as it lies on the page; its spans are chosen here.
pub fn write(out: &mut Drawing, picture: &Picture, run: &Run<'_>, place: Panel) {
    let (from, to) = picture.first.shown();
    if from >= to {
        return;
    }
    let mut panel = place;
    panel.across = across(&picture.first, from, to);
    panel.up = up(picture, from, to, run.outcomes.len());
    let beginning = Beginning {
        picture,
        run,
        panel,
        from,
        to,
    };
    beginning.write(out);
}
