// How many gaps there were of each length, both on a logarithmic scale.
use crate::Picture;
use crate::drawing::Drawing;
use crate::gaps::{Bin, Gaps};
use crate::logarithm::octaves;
use crate::panel::Panel;
use crate::round::next;
use crate::span::Span;
use crate::svg::{Point, end_text, rectangle, text};
use crate::time::ticks_and_time;

const OCTAVE: u64 = 1024;

// The next number with a label.
fn after(value: u64, fine: bool) -> u64 {
    if fine {
        next(value)
    } else {
        value.saturating_mul(10)
    }
}

fn counts_axis(out: &mut Drawing, panel: &Panel) {
    let fine = panel.up.length() < 6 * OCTAVE;
    let mut value = 1u64;
    for _ in 0..60 {
        let place = octaves(value);
        if place <= panel.up.to {
            panel.level(out, panel.y(place), value);
        }
        value = after(value, fine);
    }
}

fn lengths_axis(out: &mut Drawing, panel: &Panel) {
    let fine = panel.across.length() < 13 * OCTAVE;
    let mut value = 1u64;
    for _ in 0..60 {
        let place = octaves(value);
        if place >= panel.across.from && place <= panel.across.to {
            panel.upright(out, panel.x(place), value);
        }
        value = after(value, fine);
    }
    panel.across_name(out, "ticks from a store to the next");
}

fn bar(out: &mut Drawing, panel: &Panel, bin: Bin) {
    let x = panel.x(octaves(bin.from));
    let y = panel.y(octaves(bin.count));
    let width = panel.x(octaves(bin.to)).saturating_sub(x);
    rectangle(
        out,
        "bar",
        Point { x, y },
        width,
        panel.bottom().saturating_sub(y),
    );
}

// A bar's count, above it.
fn bar_count(out: &mut Drawing, panel: &Panel, bin: Bin) {
    let left = panel.x(octaves(bin.from));
    let right = panel.x(octaves(bin.to));
    let x = left.saturating_add(right.saturating_sub(left) / 2);
    let y = panel.y(octaves(bin.count)).saturating_sub(40);
    text(out, "mid small", Point { x, y });
    out.grouped(bin.count);
    end_text(out);
}

// No neighbour's count would stand in the way.
fn alone(gaps: &Gaps, bin: usize) -> bool {
    let before = bin > 0 && gaps.bin(bin.saturating_sub(1)).is_some();
    !before && gaps.bin(bin.saturating_add(1)).is_none()
}

fn bars(out: &mut Drawing, panel: &Panel, gaps: &Gaps) {
    for place in 0..gaps.bins() {
        if let Some(bin) = gaps.bin(place) {
            bar(out, panel, bin);
            if alone(gaps, place) {
                bar_count(out, panel, bin);
            }
        }
    }
}

fn heading(out: &mut Drawing, panel: &Panel, picture: &Picture) {
    let clock = picture.link.clock;
    panel.heading(out);
    out.put("The gaps between stores: ");
    out.grouped(picture.stores.saturating_sub(1));
    out.put(" in all, the least ");
    ticks_and_time(out, picture.gaps.least, clock);
    out.put(", the greatest ");
    ticks_and_time(out, picture.gaps.greatest, clock);
    end_text(out);
}

// With an octave on either side, so that gaps all alike make a bar and no wall.
fn across(gaps: &Gaps) -> Span {
    let (from, to) = gaps.reach();
    Span {
        from: octaves(from).saturating_sub(OCTAVE),
        to: octaves(to).saturating_add(OCTAVE),
    }
}

pub fn write(out: &mut Drawing, picture: &Picture, place: Panel) {
    if picture.gaps.is_empty() {
        return;
    }
    let mut panel = place;
    panel.across = across(&picture.gaps);
    // A count of 1 stands half an octave high, and the highest has room for its number.
    let top = octaves(picture.gaps.most());
    panel.up = Span {
        from: OCTAVE / 2,
        to: top.saturating_add(top / 8).saturating_add(OCTAVE / 2),
    };
    heading(out, &panel, picture);
    counts_axis(out, &panel);
    lengths_axis(out, &panel);
    panel.up_name(out, "gaps");
    bars(out, &panel, &picture.gaps);
    panel.frame(out);
}
