//! Views: the text that a view is a part of, and how to take a view of a part of another view.

ghost use Rattle.std.specs.Prelude.{◌+◌, ◌^◌, ◌<◌, ◌≡◌, IfOk};
ghost use Rattle.wb_heap_model.specs.Texts.{left_part, right_part, mid_part, view_of_part};

use crate::heap::{Panic, Ptr};

/// The text that a view was taken of.
#[derive(Clone, Copy, Debug, PartialEq, Eq)]
pub enum Base {
    Nothing,
    Literal(u32),
    Local(u8),
    Cell(Ptr),
}

/// A part of a base's text: `length` units, starting at `position`. Units past the end of the text read as zero.
#[derive(Clone, Copy, Debug, PartialEq, Eq)]
pub struct View {
    pub base: Base,
    pub position: u32,
    pub length: u32,
}

impl View {
    /// Returns a view of the first `count` units.
    ///
    /// Returns `Panic::POSITION_OUT_OF_BOUNDS` if the view has fewer than `count` units.
    pub fn left(self, count: u32) -> Result<View, Panic>
        requires { self.position + self.length < 2 ^ 32 }
        ensures part { result ≡ view_of_part self (left_part self.length count) }
        ensures ends { IfOk result (λ view. view.position + view.length < 2 ^ 32) }
    {
        self.mid(0, count)
    }

    /// Returns a view of the last `count` units.
    ///
    /// Returns `Panic::POSITION_OUT_OF_BOUNDS` if the view has fewer than `count` units.
    pub fn right(self, count: u32) -> Result<View, Panic>
        requires { self.position + self.length < 2 ^ 32 }
        ensures part { result ≡ view_of_part self (right_part self.length count) }
        ensures ends { IfOk result (λ view. view.position + view.length < 2 ^ 32) }
    {
        let Some(position) = self.length.checked_sub(count) else {
            return Err(Panic::POSITION_OUT_OF_BOUNDS);
        };
        self.mid(position, count)
    }

    /// Returns a view of `count` units of this view. The first of these units is at `position` in this view.
    ///
    /// Returns `Panic::POSITION_OUT_OF_BOUNDS` if `position` is past this view's end, or if fewer than `count` units are left from
    /// `position` on.
    pub fn mid(self, position: u32, count: u32) -> Result<View, Panic>
        requires { self.position + self.length < 2 ^ 32 }
        ensures part { result ≡ view_of_part self (mid_part self.length position count) }
        ensures ends { IfOk result (λ view. view.position + view.length < 2 ^ 32) }
    {
        if self.length < position || self.length - position < count {
            return Err(Panic::POSITION_OUT_OF_BOUNDS);
        }
        Ok(View {
            position: self.position + position,
            length: count,
            ..self
        })
    }
}
