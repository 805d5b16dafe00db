// The page: its title, and one thing below the other. Lengths are tenths of a pixel.
use crate::drawing::Drawing;
use crate::look::STYLE;
use crate::panel::Panel;
use crate::span::Span;
use crate::svg::{Point, end_text, text};
use crate::{Picture, Run, beginning, histogram, key, levels};

const LEFT: u64 = 900;

const KEY: u64 = 930;

// From a panel's bottom to the next one's top: the axis, and a heading.
const BETWEEN: u64 = 1000;

const TALL: u64 = 2700;

const LOW: u64 = 1800;

fn panel(top: u64, height: u64) -> Panel {
    let nothing = Span { from: 0, to: 0 };
    Panel {
        left: LEFT,
        top,
        width: 8100,
        height,
        across: nothing,
        up: nothing,
    }
}

fn open(out: &mut Drawing, height: u64) {
    out.put("<svg xmlns=\"http://www.w3.org/2000/svg\" width=\"1020\" height=\"");
    out.pixels(height);
    out.put("\" viewBox=\"0 0 1020 ");
    out.pixels(height);
    out.put("\">\n<style>");
    out.put(STYLE);
    out.put("</style>\n<rect width=\"100%\" height=\"100%\" fill=\"#fff\"/>\n");
}

fn title(out: &mut Drawing, run: &Run<'_>) {
    text(out, "title", Point { x: LEFT, y: 350 });
    out.put("The link of ");
    out.escaped(run.file);
    end_text(out);
}

fn link(out: &mut Drawing, picture: &Picture, run: &Run<'_>) {
    text(out, "", Point { x: LEFT, y: 540 });
    out.put("Link window ");
    out.hex(run.from);
    out.put(" to ");
    out.hex(run.to);
    out.put(", clock ");
    out.grouped(picture.link.clock);
    out.put(" ticks a second, buffer ");
    out.grouped(picture.link.words);
    out.put(" words (");
    out.grouped(picture.link.holds());
    out.put(" bits)");
    end_text(out);
}

fn totals(out: &mut Drawing, picture: &Picture, run: &Run<'_>) {
    text(out, "", Point { x: LEFT, y: 700 });
    out.grouped(run.cycles);
    out.put(" cycles from address 0, ");
    out.grouped(picture.stores);
    out.put(" stores with ");
    out.grouped(picture.bits);
    out.put(" bits");
    match run.choice {
        Some(option) => {
            out.put("; the choice: ");
            out.grouped(u64::from(run.outcome(option).rate));
            out.put(" kb/s");
        }
        None => out.put("; no choice: no option both fits and does not grow"),
    }
    end_text(out);
}

fn head(out: &mut Drawing, picture: &Picture, run: &Run<'_>, height: u64) {
    open(out, height);
    title(out, run);
    link(out, picture, run);
    totals(out, picture, run);
    key::write(out, picture, run, KEY);
}

pub fn write(out: &mut Drawing, picture: &Picture, run: &Run<'_>) {
    let under = key::height(run.outcomes.len()).saturating_add(KEY);
    let first = under.saturating_add(560);
    let second = first.saturating_add(TALL + BETWEEN);
    let third = second.saturating_add(TALL + BETWEEN);
    head(out, picture, run, third.saturating_add(LOW + 450));
    beginning::write(out, picture, run, panel(first, TALL));
    levels::write(out, picture, run, panel(second, TALL));
    histogram::write(out, picture, panel(third, LOW));
    out.put("</svg>\n");
}
