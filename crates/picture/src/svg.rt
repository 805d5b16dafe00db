// The elements of a drawing. Lengths are tenths of a pixel.
use crate::drawing::Drawing;
use crate::look::look_of;

#[derive(Clone, Copy)]
pub struct Point {
    pub x: u64,
    pub y: u64,
}

fn length(out: &mut Drawing, name: &str, tenths: u64) {
    out.put(name);
    out.put("=\"");
    out.pixels(tenths);
    out.put("\" ");
}

fn open(out: &mut Drawing, element: &str, class: &str) {
    out.put("<");
    out.put(element);
    out.put(" class=\"");
    out.put(class);
    out.put("\" ");
}

pub fn line(out: &mut Drawing, class: &str, from: Point, to: Point) {
    open(out, "line", class);
    length(out, "x1", from.x);
    length(out, "y1", from.y);
    length(out, "x2", to.x);
    length(out, "y2", to.y);
    out.put("/>\n");
}

pub fn rectangle(out: &mut Drawing, class: &str, at: Point, width: u64, height: u64) {
    open(out, "rect", class);
    length(out, "x", at.x);
    length(out, "y", at.y);
    length(out, "width", width);
    length(out, "height", height);
    out.put("/>\n");
}

// A text's beginning; its words and `end_text` follow.
pub fn text(out: &mut Drawing, class: &str, at: Point) {
    open(out, "text", class);
    length(out, "x", at.x);
    length(out, "y", at.y);
    out.put(">");
}

pub fn end_text(out: &mut Drawing) {
    out.put("</text>\n");
}

pub fn words(out: &mut Drawing, class: &str, at: Point, words: &str) {
    text(out, class, at);
    out.put(words);
    end_text(out);
}

// The beginning of a line of many points, or of what they enclose; vertices and `end_points` follow.
pub fn points(out: &mut Drawing, element: &str, class: &str) {
    open(out, element, class);
    out.put("points=\"");
}

pub fn option_points(out: &mut Drawing, option: usize, choice: Option<usize>) {
    let look = look_of(option, choice);
    out.put("<polyline class=\"o ");
    if look.chosen {
        out.put("c");
    } else {
        out.put("d");
        out.decimal(look.dash as u64);
    }
    out.put(" k");
    out.decimal(look.colour as u64);
    out.put("\" points=\"");
}

pub fn vertex(out: &mut Drawing, at: Point) {
    out.pixels(at.x);
    out.put(",");
    out.pixels(at.y);
    out.put(" ");
}

pub fn end_points(out: &mut Drawing) {
    out.put("\"/>\n");
}

pub fn end_group(out: &mut Drawing) {
    out.put("</g>\n");
}
