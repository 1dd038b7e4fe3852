//! What the operands of a line spell, in the body that the line is in: pointers, numbers, texts and classes.

ghost use Rattle.std.specs.Prelude.{◌≡◌, ◌<◌, length, nat_lt, slice_get, false, IfSome, IsSome, IsTrue, MatchOption};
ghost use Rattle.wb_tree.specs.declared.script.Pointer.TheVariants as P;
ghost use Rattle.wb_basics.specs.declared.limits.TheConstants.{MOST_LOCALS};
ghost use Rattle.wb_tree.specs.declared.script_lines.LineKind.TheVariants as line_kind;
ghost use Rattle.wb_tree.specs.declared.script_lines.OperandPlace.TheVariants as operand_place;
ghost use Rattle.wb_tree.specs.Sound.{is_pointer, is_target, is_variable, is_number, is_view, is_writable};
ghost use Rattle.wb_tree.specs.Sound.{is_readable};
ghost use Rattle.wb_tree.specs.Spellings.{class_operand, pointer_operand, variable_operand, number_operand};
ghost use Rattle.wb_tree.specs.Spellings.{view_operand, writable_operand, text_operand, set_line_kind};
ghost use Rattle.wb_script.specs.Fitting.{IsSpelled};
ghost use Rattle.wb_script.specs.Stated.{IsFieldOf, IsHolderOf, IsPointerLocal, IsReceiver, scope_in};

use crate::tree::scope::Scope;
use wb_basics::limits::NINE_DIGITS;
use wb_tree::script::{Holder, Local, Number, Pointer, Readable, Writable};
use wb_tree::script_lines::{Operand, Referent};

impl<'a> Scope<'a> {
    /// The local with an index; `None` if there is no such local.
    fn local(&self, index: usize) -> Option<Local>
        ensures found { result ≡ slice_get self.now.locals.now index }
        ensures few { IsSome result → index < MOST_LOCALS }
    {
        match self.locals.get(index) {
            Some(local) => Some(*local),
            None => None,
        }
    }

    /// This index, if the local with this index holds a pointer; `None` otherwise.
    fn pointer_local(&self, index: usize) -> Option<u8>
        ensures { IsPointerLocal (scope_in self.now) index result }
    {
        match self.local(index) {
            Some(Local::OfPointer(_)) => Some(index as u8),
            _ => None,
        }
    }

    /// The local or `self` that a name stands for, if it holds a pointer; `None` otherwise.
    fn holder(&self, name: Referent) -> Option<Holder>
        ensures { IsHolderOf (scope_in self.now) name result }
    {
        match name {
            Referent::Pointer(index) => Some(Holder::Local(self.pointer_local(index)?)),
            Referent::This => match self.this {
                Some(_) => Some(Holder::This),
                None => None,
            },
            _ => None,
        }
    }

    /// The class of `self`, or the class with which a local is declared; `None` if there is no class.
    fn class_of_holder(&self, holder: Holder) -> Option<u16>
        ensures { result
            ≡ Rattle.wb_tree.specs.Sound.class_of_holder (scope_in self.now) holder }
    {
        match holder {
            Holder::Local(index) => match self.local(index as usize) {
                Some(Local::OfPointer(class)) => class,
                _ => None,
            },
            Holder::This => self.this,
        }
    }

    /// How many fields the class with an index has; `None` if there is no such class.
    fn field_count(&self, class: usize) -> Option<u8>
        ensures { result ≡ slice_get self.now.fields.now class }
    {
        match self.fields.get(class) {
            Some(count) => Some(*count),
            None => None,
        }
    }

    /// The field with an index in a class, accessed by a local or `self`. The result is `None` if the local or `self` isn't of this class,
    /// or the class has no such field.
    fn field_of(&self, holder: Holder, class: usize, index: usize) -> Option<Pointer>
        ensures { MatchOption result
            (is_pointer (scope_in self.now) (P.Field holder class index) ≡ false)
            (λ p. (p ≡ P.Field holder class index) × IsTrue (is_pointer (scope_in self.now) p)) }
    {
        match (self.class_of_holder(holder), self.field_count(class)) {
            (Some(own), Some(count)) => {
                if own as usize == class && index < count as usize {
                    Some(Pointer::Field(holder, own, index as u8))
                } else {
                    None
                }
            }
            _ => None,
        }
    }

    /// The field that a name before a dot and a name after the dot stand for. The result is `None` unless the name before the dot is a
    /// local or `self` of the class that has the field.
    fn field(&self, base: Referent, field: Referent) -> Option<Pointer>
        ensures { IsFieldOf (scope_in self.now) base field result }
    {
        match field {
            Referent::Field(class, index) => self.field_of(self.holder(base)?, class, index),
            _ => None,
        }
    }

    /// The pointer that an operand spells: a local, `self`, or a field of a local or of `self`. The result is `None` if the operand spells
    /// no pointer.
    pub(crate) fn pointer(&self, operand: &Operand<Referent>) -> Option<Pointer>
        ensures { IsSpelled pointer_operand (is_pointer (scope_in self.now)) self.now.literals
            (scope_in self.now) operand_place.Pointer operand.now result }
    {
        match operand {
            Operand::Name(name) => Some(Pointer::Held(self.holder(*name)?)),
            Operand::Field(base, field) => self.field(*base, *field),
            _ => None,
        }
    }

    /// The pointer that an operand spells, if a line may write it: a local, or a field; `None` otherwise.
    pub(crate) fn written_pointer(&self, operand: &Operand<Referent>) -> Option<Pointer>
        ensures { IsSpelled pointer_operand (is_target (scope_in self.now)) self.now.literals
            (scope_in self.now) operand_place.Written operand.now result }
    {
        match operand {
            Operand::Field(base, field) => self.field(*base, *field),
            _ => Some(Pointer::Held(Holder::Local(self.receiver(operand)?))),
        }
    }

    /// The local that an operand spells, if it holds a pointer; `None` otherwise.
    pub(crate) fn receiver(&self, operand: &Operand<Referent>) -> Option<u8>
        ensures { IsReceiver self.now operand.now result }
    {
        match operand {
            Operand::Name(Referent::Pointer(index)) => self.pointer_local(*index),
            _ => None,
        }
    }

    /// The field that an operand spells; `None` if the operand spells no field.
    pub(crate) fn field_target(&self, operand: &Operand<Referent>) -> Option<Pointer>
        ensures spelled { IsSpelled pointer_operand (is_target (scope_in self.now))
            self.now.literals (scope_in self.now) operand_place.FieldTarget operand.now result }
        ensures line_kind { IfSome result (λ p. set_line_kind p ≡ line_kind.SetField) }
    {
        match operand {
            Operand::Field(base, field) => self.field(*base, *field),
            _ => None,
        }
    }

    /// The class that an operand spells; `None` if the operand spells no class.
    pub(crate) fn class(&self, operand: &Operand<Referent>) -> Option<u16>
        ensures { IsSpelled class_operand (λ class.
            nat_lt class (length self.now.fields.now)) self.now.literals (scope_in self.now)
            operand_place.Class operand.now result }
    {
        match operand {
            Operand::Name(Referent::Class(index)) => {
                if *index < self.fields.len() {
                    Some(*index as u16)
                } else {
                    None
                }
            }
            _ => None,
        }
    }

    /// The local that an operand spells, if it holds a number; `None` otherwise.
    pub(crate) fn variable(&self, operand: &Operand<Referent>) -> Option<u8>
        ensures { IsSpelled variable_operand (is_variable self.now.locals.now) self.now.literals
            (scope_in self.now) operand_place.Variable operand.now result }
    {
        match operand {
            Operand::Name(Referent::Number(index)) => match self.local(*index) {
                Some(Local::OfNumber) => Some(*index as u8),
                _ => None,
            },
            _ => None,
        }
    }

    /// The number that an operand spells, or the number local that it spells; `None` if the operand spells neither.
    pub(crate) fn number(&self, operand: &Operand<Referent>) -> Option<Number>
        ensures { IsSpelled number_operand (is_number self.now.locals.now) self.now.literals
            (scope_in self.now) operand_place.Value operand.now result }
    {
        match operand {
            Operand::Number(number) => {
                if number.unsigned_abs() <= NINE_DIGITS {
                    Some(Number::Constant(*number))
                } else {
                    None
                }
            }
            _ => Some(Number::Variable(self.variable(operand)?)),
        }
    }

    /// The local that an operand spells, if it holds a view; `None` otherwise.
    pub(crate) fn view(&self, operand: &Operand<Referent>) -> Option<u8>
        ensures { IsSpelled view_operand (is_view self.now.locals.now) self.now.literals
            (scope_in self.now) operand_place.ViewName operand.now result }
    {
        match operand {
            Operand::Name(Referent::View(index)) => match self.local(*index) {
                Some(Local::OfView) => Some(*index as u8),
                _ => None,
            },
            _ => None,
        }
    }

    /// The text that an operand spells, if it can be changed; `None` otherwise.
    pub(crate) fn writable(&self, operand: &Operand<Referent>) -> Option<Writable>
        ensures { IsSpelled writable_operand (is_writable (scope_in self.now)) self.now.literals
            (scope_in self.now) operand_place.Writable operand.now result }
    {
        match operand {
            Operand::Name(Referent::Buffer(index)) => match self.local(*index) {
                Some(Local::OfBuffer(_)) => Some(Writable::OwnBuffer(*index as u8)),
                _ => None,
            },
            _ => Some(Writable::InCell(self.pointer(operand)?)),
        }
    }

    /// The text that an operand spells, if it can be read; `None` otherwise.
    pub(crate) fn readable(&self, operand: &Operand<Referent>) -> Option<Readable>
        ensures { IsSpelled text_operand (is_readable self.now.literals (scope_in self.now))
            self.now.literals (scope_in self.now) operand_place.Readable operand.now result }
    {
        match operand {
            Operand::Literal(Referent::Literal(index)) => {
                if *index < self.literals as usize {
                    Some(Readable::Quoted(*index as u32))
                } else {
                    None
                }
            }
            Operand::Name(Referent::View(_)) => Some(Readable::ViewOf(self.view(operand)?)),
            _ => Some(Readable::Of(self.writable(operand)?)),
        }
    }
}
