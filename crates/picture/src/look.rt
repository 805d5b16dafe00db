// How it looks: black on white, and lines that differ without colour.

pub const STYLE: &str =
    "text{font-family:Helvetica,Arial,'DejaVu Sans',sans-serif;font-size:11px;fill:#000}
.title{font-size:19px;font-weight:bold}.head{font-size:13px;font-weight:bold}.name{font-weight:bold}
.end{text-anchor:end}.mid{text-anchor:middle}.small{font-size:10px}.halo{paint-order:stroke;stroke:#fff;stroke-width:3px}.quiet{fill:#444}
.frame{fill:none;stroke:#000;stroke-width:1}.grid{stroke:#ccc;stroke-width:.6}.tick{stroke:#000;stroke-width:1}
.stairs{fill:none;stroke:#000;stroke-width:1.2}.band{fill:#000;fill-opacity:.09;stroke:none}.rim{fill:none;stroke:#555;stroke-width:.8;stroke-dasharray:2 2}
.full{stroke:#000;stroke-width:1.2;stroke-dasharray:1 2}.bar{fill:#b5b5b5;stroke:#000;stroke-width:.6}.mark{fill:none;stroke:#000;stroke-width:1.8}
.lead{fill:none;stroke:#777;stroke-width:.6}.o{fill:none;stroke-width:1.5}.c{stroke-width:3}
.d0{stroke-dasharray:7 3}.d1{stroke-dasharray:2 2.5}.d2{stroke-dasharray:11 3 2 3}.d3{stroke-dasharray:14 5}
.d4{stroke-dasharray:4 2}.d5{stroke-dasharray:9 2 2 2 2 2}.d6{stroke-dasharray:1 4}.d7{stroke-dasharray:18 3 4 3}
.k0{stroke:#a33a00}.k1{stroke:#00558c}.k2{stroke:#00694e}.k3{stroke:#8a2a6b}.k4{stroke:#6b5300}.k5{stroke:#333}";

#[derive(Clone, Copy)]
pub struct Look {
    pub dash: usize,
    pub colour: usize,
    pub chosen: bool,
}

// The chosen option's line is whole, and thick.
pub fn look_of(option: usize, choice: Option<usize>) -> Look {
    Look {
        dash: option % 8,
        colour: option % 6,
        chosen: choice == Some(option),
    }
}
