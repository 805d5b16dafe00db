// The options' names at the right ends of their lines, moved apart where they would cover each other.
use crate::drawing::Drawing;
use crate::panel::Panel;
use crate::svg::{Point, end_text, line, text};

// More have no room.
pub const MOST: usize = 16;

const APART: u64 = 125;

#[derive(Clone, Copy, Default)]
struct Label {
    rate: u32,
    // Where the line ends, and where the name stands.
    end: u64,
    place: u64,
    // The line leaves the panel at its top.
    leaves: bool,
}

// From the top of the panel downward.
#[derive(Drop)]
pub struct Labels {
    labels: [Label; 16],
    count: usize,
}

impl Labels {
    pub fn new() -> Labels {
        Labels {
            labels: [Label {
                rate: 0,
                end: 0,
                place: 0,
                leaves: false,
            }; 16],
            count: 0,
        }
    }

    // The next one below.
    pub fn put(&mut self, rate: u32, y: u64, leaves: bool) {
        if let Some(label) = self.labels.get_mut(self.count) {
            *label = Label {
                rate,
                end: y,
                place: y,
                leaves,
            };
            self.count = self.count.saturating_add(1);
        }
    }

    fn at(&self, label: usize) -> Label {
        self.labels.get(label).copied().unwrap_or_default()
    }

    fn set(&mut self, label: usize, y: u64) {
        if let Some(label) = self.labels.get_mut(label) {
            label.place = y;
        }
    }

    fn move_down(&mut self) {
        for label in 1..self.count {
            let least = self.at(label.saturating_sub(1)).place.saturating_add(APART);
            self.set(label, self.at(label).place.max(least));
        }
    }

    // Where they went beyond the bottom.
    fn move_up(&mut self, bottom: u64) {
        let mut most = bottom;
        for back in 0..self.count {
            let label = self.count.saturating_sub(back).saturating_sub(1);
            self.set(label, self.at(label).place.min(most));
            most = self.at(label).place.saturating_sub(APART);
        }
    }

    pub fn write(&mut self, out: &mut Drawing, panel: &Panel) {
        self.move_down();
        self.move_up(panel.bottom());
        for place in 0..self.count {
            name(out, panel.right(), self.at(place));
        }
    }
}

fn name(out: &mut Drawing, x: u64, label: Label) {
    let to = x.saturating_add(110);
    line(
        out,
        "lead",
        Point { x, y: label.end },
        Point {
            x: to,
            y: label.place,
        },
    );
    text(
        out,
        "small",
        Point {
            x: to.saturating_add(20),
            y: label.place.saturating_add(35),
        },
    );
    out.grouped(u64::from(label.rate));
    out.put(if label.leaves {
        " kb/s &#8593;"
    } else {
        " kb/s"
    });
    end_text(out);
}
