ghost use Rattle.std.specs.Prelude.{◌≡◌, ◌≤◌, IfOk, length};

use crate::items::Items;
use arrayvec::ArrayVec;
use std::alloc::AllocError;
use std::marker::Model;

/// A printed line of at most 80 bytes, which contracts see as the list of its bytes.
#[derive(Debug, Drop)]
pub struct Line {
    bytes: ArrayVec<u8, 80>,
}

impl Model for Line {
    ghost use Rattle.std.specs.Prelude.{List, ℕ};

    ghost Value = { List ℕ };

    ghost view = { λ l. l.bytes.items };
}

impl Line {
    /// Returns the line with these bytes.
    pub fn new(bytes: ArrayVec<u8, 80>) -> Line
        ensures { result ≡ bytes.items }
    {
        Line { bytes }
    }

    /// The bytes of the line, without a line feed.
    pub fn as_slice(&self) -> &[u8]
        ensures { result.now ≡ self.now }
    {
        self.bytes.as_slice()
    }

    /// Returns a copy of the line.
    pub fn copy(&self) -> Line
        ensures { result ≡ self.now }
    {
        match ArrayVec::try_from(self.bytes.as_slice()) {
            Ok(bytes) => Line { bytes },
            Err(_) => unreachable!(),
        }
    }
}

/// Returns a copy of the lines, in newly allocated memory; `Err` if the workbench's memory runs out.
pub fn copy_of_lines(lines: &Items<Line>) -> Result<Items<Line>, AllocError>
    ensures { IfOk result (λ copy. copy ≡ lines.now) }
{
    let mut items = Vec::new(*lines.items.allocator());
    for line in lines.as_slice() {
        items.push(line.copy())?;
    }
    Ok(Items { items })
}
