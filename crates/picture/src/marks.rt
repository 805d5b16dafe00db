// Where an option first overflows: a cross, with its rate beside it.
use crate::drawing::Drawing;
use crate::panel::Panel;
use crate::svg::{Point, end_text, line, text};

const ARM: u64 = 50;

// Names stand one above the other; more have no room.
const ROWS: u64 = 4;

// What a name takes.
const ROOM: u64 = 900;

pub fn cross(out: &mut Drawing, at: Point) {
    let left = at.x.saturating_sub(ARM);
    let right = at.x.saturating_add(ARM);
    let above = at.y.saturating_sub(ARM);
    let below = at.y.saturating_add(ARM);
    line(
        out,
        "mark",
        Point { x: left, y: above },
        Point { x: right, y: below },
    );
    line(
        out,
        "mark",
        Point { x: left, y: below },
        Point { x: right, y: above },
    );
}

// At the cross's right, or at its left where the right has no room.
pub fn named(out: &mut Drawing, panel: &Panel, at: Point, rate: u32, row: u64) {
    cross(out, at);
    if row >= ROWS {
        return;
    }
    let y = at
        .y
        .saturating_sub(row.saturating_mul(120).saturating_add(90));
    if at.x.saturating_add(ROOM) < panel.right() {
        text(
            out,
            "small halo",
            Point {
                x: at.x.saturating_add(75),
                y,
            },
        );
    } else {
        text(
            out,
            "small halo end",
            Point {
                x: at.x.saturating_sub(75),
                y,
            },
        );
    }
    out.grouped(u64::from(rate));
    out.put(" kb/s");
    end_text(out);
}
