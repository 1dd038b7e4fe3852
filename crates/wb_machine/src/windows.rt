//! Views. A view shows a part of a text.

ghost use Rattle.std.specs.Prelude.{◌≡◌, ◌+◌, ◌^◌, ◌<◌};
ghost use Rattle.wb_heap_model.specs.Texts.{left_part, right_part, mid_part, view_of_part};
ghost use Rattle.wb_machine.specs.LocalValues.{whole_window, no_window};

use std::marker::Model;
use wb_heap_model::heap::Panic;
use wb_text::{Base, View};

/// A view whose end, in units, fits into an int.
#[derive(Clone, Copy)]
pub struct Window {
    view: View,
}

impl Model for Window {
    ghost use Rattle.std.specs.Prelude.{◌+◌, ◌^◌, ◌<◌};
    ghost use Rattle.wb_heap_model.specs.declared.text.View.{View};

    ghost Value = { View };

    ghost view = { λ w. w.view };

    ghost invariant = { λ w. w.view.position + w.view.length < 2 ^ 31 };

    ghost inverse = { λ v. record { view = v } };
}

impl Window {
    /// The empty view of no text.
    pub fn nothing() -> Window
        ensures { result ≡ no_window }
    {
        Window::whole(Base::Nothing, 0)
    }

    /// A view of the first `length` units of a base's text.
    pub fn whole(base: Base, length: u32) -> Window
        requires { length < 2 ^ 31 }
        ensures { result ≡ whole_window base length }
    {
        Window {
            view: View {
                base,
                position: 0,
                length,
            },
        }
    }

    /// The view itself.
    pub fn view(&self) -> View
        ensures view { result ≡ self.now }
        ensures ends { self.now.position + self.now.length < 2 ^ 31 }
    {
        self.view
    }

    /// The first `count` units of the view; `Panic::POSITION_OUT_OF_BOUNDS` if the view has fewer units.
    pub fn left(self, count: u32) -> Result<Window, Panic>
        ensures { result ≡ view_of_part self (left_part self.length count) }
    {
        let view = self.view.left(count)?;
        Ok(Window { view })
    }

    /// The last `count` units of the view; `Panic::POSITION_OUT_OF_BOUNDS` if the view has fewer units.
    pub fn right(self, count: u32) -> Result<Window, Panic>
        ensures { result ≡ view_of_part self (right_part self.length count) }
    {
        let view = self.view.right(count)?;
        Ok(Window { view })
    }

    /// `count` units of the view from `position` on; `Panic::POSITION_OUT_OF_BOUNDS` if the view has fewer units from `position` on.
    pub fn mid(self, position: u32, count: u32) -> Result<Window, Panic>
        ensures { result ≡ view_of_part self (mid_part self.length position count) }
    {
        let view = self.view.mid(position, count)?;
        Ok(Window { view })
    }
}
