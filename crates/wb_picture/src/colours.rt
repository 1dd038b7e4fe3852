//! The colours of a picture, on a light and on a dark background, and the use of each colour. The colours are those of Okabe and Ito, which
//! colour-blind people can tell apart.

use crate::drawing::{Drawing, Drawn};
use wb_heap_model::heap::Kind;

/// What a cell's colour says about the cell.
#[derive(Clone, Copy, PartialEq, Eq)]
pub enum Paint {
    Raw,
    Text,
    Stack,
    /// An object. The number is the index of its class, modulo 8.
    Class(u16),
    Leak,
}

/// The names of the styles of classes. The last four styles have the colours of the first four, but a broken edge.
static CLASSES: [&str; 8] = [
    "ob1", "ob2", "ob3", "ob4", "ob1 alt", "ob2 alt", "ob3 alt", "ob4 alt",
];

impl Paint {
    /// The paint of a cell that is of this kind and doesn't leak. Classes have the same paint if their indices differ by a multiple of 8.
    pub fn of(kind: Kind) -> Paint {
        match kind {
            Kind::Raw => Paint::Raw,
            Kind::Text => Paint::Text,
            Kind::Cleanup => Paint::Stack,
            Kind::Object(class) => Paint::Class(class % 8),
        }
    }

    /// The number of the paint. It orders rectangles that lie at the same place and have the same size.
    pub fn rank(self) -> u32 {
        match self {
            Paint::Raw => 0,
            Paint::Text => 1,
            Paint::Stack => 2,
            Paint::Class(class) => u32::from(class % 8).saturating_add(3),
            Paint::Leak => 11,
        }
    }

    /// The paint with this number.
    pub fn at(rank: u32) -> Paint {
        match rank {
            0 => Paint::Raw,
            1 => Paint::Text,
            2 => Paint::Stack,
            11 => Paint::Leak,
            _ => Paint::Class(u16::try_from(rank.saturating_sub(3)).unwrap_or(0)),
        }
    }

    /// The name of the paint's style.
    pub fn name(self) -> &'static str {
        match self {
            Paint::Raw => "raw",
            Paint::Text => "txt",
            Paint::Stack => "stk",
            Paint::Class(class) => CLASSES.get(class as usize).copied().unwrap_or(""),
            Paint::Leak => "leak",
        }
    }

    /// The name of the style of text that is written over the paint.
    pub fn label_name(self) -> &'static str {
        match self {
            Paint::Class(3 | 7) => "n n4",
            _ => "n",
        }
    }
}

/// Writes the style sheet.
pub fn put_style(drawing: &mut Drawing<'_>) -> Drawn {
    drawing.text.push_str("<style>\n")?;
    drawing.text.push_str(LIGHT)?;
    drawing.text.push_str(SHAPES)?;
    drawing.text.push_str(DARK)?;
    drawing.text.push_str("</style>\n")
}

const LIGHT: &str = "svg{background:#fff;font:11px sans-serif}
text{fill:#222}.dim{fill:#555}.h{font-size:13px;font-weight:bold}.name{font-size:15px;font-weight:bold}
.paper{fill:#fff}.plot{fill:#f6f6f6;stroke:#999}.grid{stroke:#ddd}
.strong{stroke:#222}
";

const SHAPES: &str = ".raw{fill:#56b4e9}.txt{fill:#009e73}.stk{fill:#aaa}
.ob1{fill:#e69f00}.ob2{fill:#f0e442}.ob3{fill:#cc79a7}.ob4{fill:#0072b2}
.cell{stroke:#fff;stroke-opacity:.7;stroke-width:.5}
.leak{fill:#d55e00}.cell.leak{stroke:#000;stroke-opacity:1;stroke-width:1}
.alt{stroke:#000;stroke-opacity:1;stroke-width:1.5;stroke-dasharray:5 3}
.over{paint-order:stroke;stroke:#fff;stroke-width:3}.fold{fill:#fff;stroke:#777}.in{fill:#fff}
.n{fill:#000;text-anchor:middle;pointer-events:none;paint-order:stroke;stroke:#fff;stroke-opacity:.5;stroke-width:3}
.n4{fill:#fff;stroke:#0072b2}
.c{text-anchor:middle}.e{text-anchor:end}
.sim{stroke:#d55e00;fill:none;stroke-width:1.5}
.ref{stroke:#0072b2;fill:none;stroke-width:1.5;stroke-dasharray:3 2}
.rise{stroke-width:1.5;fill:none}.need{stroke-width:1.5;stroke-dasharray:7 3}
.limit{stroke:#0072b2;stroke-width:2}.held{stroke-dasharray:1 3;fill:none}
.end{stroke:#d55e00;stroke-width:2.5}.fail{stroke-dasharray:2 3}
.join{fill:none;stroke-width:1.5}.band{fill:#0072b2}.cut1{fill:#0072b2}.cut2{fill:#56b4e9}
";

const DARK: &str = "@media(prefers-color-scheme:dark){svg{background:#161616}
text{fill:#ddd}.dim{fill:#aaa}.n{fill:#000}.n4{fill:#fff}
.paper{fill:#161616}.plot{fill:#222;stroke:#777}.grid{stroke:#444}
.strong{stroke:#ddd}.cell{stroke:#222}.cell.leak{stroke:#fff}
.alt{stroke:#000}.over{stroke:#161616}.fold{fill:#161616;stroke:#999}.in{fill:#000}
.limit{stroke:#56b4e9}.ref{stroke:#56b4e9}.band{fill:#56b4e9}}
";
