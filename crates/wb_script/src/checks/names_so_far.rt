//! What the lines of a script declare up to some line.

ghost use Rattle.std.specs.Prelude.{◌≡◌, ◌+◌, ◌≤◌, [], ◌++◌, length, map, OnOk};
ghost use Rattle.std.specs.Option.{option_map, option_to_list};
ghost use Rattle.std.specs.List.{flat_map};
ghost use Rattle.wb_language.specs.Names.{blocks_after, bodies_before, body_after, body_in, count_begun};
ghost use Rattle.wb_language.specs.Names.{fields_after, first_name, items_before, kind_of_parameter};
ghost use Rattle.wb_language.specs.Names.{kinds_after, known_after, line_kind_in, literal_text, literals_in};
ghost use Rattle.wb_language.specs.Names.{local_kind_in, locals_after, name_passed, nothing_known};
ghost use Rattle.wb_language.specs.Names.{parameter_names, parameters_in, parameter_type_of, with_one};
ghost use Rattle.wb_tree.specs.declared.script_lines.ItemKind.TheVariants as item;
ghost use Rattle.wb_lines.specs.BytesOf.{bytes_of_form, bytes_of_kind, bytes_of_operand, bytes_of_operands};
ghost use Rattle.wb_lines.specs.BytesOf.{bytes_of_text, bytes_of_texts};
ghost use Rattle.wb_script.specs.Checks.{known_in, AreSameItems, IsFew};

use std::alloc::{AllocError, Global};
use wb_lines::declares::{body_in, first_name, item_kind_in, kind_of_parameter, local_kind_in};
use wb_lines::forms::role;
use wb_lines::lists::{add, add_some};
use wb_tree::script_lines::{BodyKind, Form, ItemKind, LineKind, LocalKind, Operand, Role};

fn literal_text<'a>(operand: &Operand<&'a [u8]>) -> Option<&'a [u8]>
    ensures { option_to_list (option_map bytes_of_text result)
        ≡ literal_text (bytes_of_operand operand.now) }
{
    match operand {
        Operand::Literal(text) => Some(*text),
        _ => None,
    }
}

/// Appends the texts of the literals among the operands.
fn add_literals<'a>(
    literals: &mut Vec<&'a [u8]>,
    operands: &[Operand<&'a [u8]>],
) -> Result<(), AllocError>
    ensures { OnOk result (bytes_of_texts literals.new.items
        ≡ bytes_of_texts literals.old.items
        ++ flat_map literal_text (bytes_of_operands operands.now)) }
{
    for operand in operands {
        add_some(literals, literal_text(operand))?;
    }
    Ok(())
}

/// What the lines before a line declare. `classes`, `procedures` and `operations` are counts. `fields` has the fields of the class begun
/// last, and `blocks` has the line kinds of the open blocks. `locals` has the locals of the body begun last, parameters first, and `kinds`
/// says what each local holds.
#[derive(Drop)]
pub(crate) struct NamesSoFar<'a> {
    pub classes: usize,
    pub procedures: usize,
    pub operations: usize,
    pub fields: Vec<&'a [u8]>,
    pub literals: Vec<&'a [u8]>,
    /// The kind of the body that was begun last.
    pub body: BodyKind,
    pub locals: Vec<&'a [u8]>,
    pub kinds: Vec<LocalKind<&'a [u8]>>,
    pub blocks: Vec<LineKind>,
}

impl<'a> NamesSoFar<'a> {
    pub(crate) fn nothing(alloc: Global) -> NamesSoFar<'a>
        ensures known { known_in result ≡ nothing_known }
        ensures literals { bytes_of_texts result.literals.items ≡ [] }
    {
        NamesSoFar {
            classes: 0,
            procedures: 0,
            operations: 0,
            fields: Vec::new(alloc),
            literals: Vec::new(alloc),
            body: BodyKind::Procedure,
            locals: Vec::new(alloc),
            kinds: Vec::new(alloc),
            blocks: Vec::new(alloc),
        }
    }

    /// Adds the parameters among the operands to the locals.
    fn add_parameters(&mut self, operands: &[Operand<&'a [u8]>]) -> Result<(), AllocError>
        ensures names { OnOk result (bytes_of_texts self.new.locals.items
            ≡ bytes_of_texts self.old.locals.items
            ++ flat_map name_passed (bytes_of_operands operands.now)) }
        ensures kinds { OnOk result (map bytes_of_kind self.new.kinds.items
            ≡ map bytes_of_kind self.old.kinds.items
            ++ map kind_of_parameter
            (flat_map parameter_type_of (bytes_of_operands operands.now))) }
        ensures items { AreSameItems self.old self.new }
        ensures others { (self.new.fields ≡ self.old.fields)
            × (self.new.literals ≡ self.old.literals) × (self.new.blocks ≡ self.old.blocks) }
    {
        for operand in operands {
            match operand {
                Operand::Parameter(name, parameter_type) => {
                    add(&mut self.locals, *name)?;
                    add(&mut self.kinds, kind_of_parameter(*parameter_type))?;
                }
                _ => {}
            }
        }
        Ok(())
    }

    /// How many procedures and operations are before a line.
    pub(crate) fn bodies_before(&self) -> usize
        requires { IsFew self.now }
        ensures { result ≡ bodies_before (known_in self.now) }
    {
        self.procedures + self.operations
    }

    /// How many items of the script's own space are before a line.
    pub(crate) fn items_before(&self) -> usize
        requires { IsFew self.now }
        ensures { result ≡ items_before (known_in self.now) }
    {
        self.classes + self.bodies_before()
    }

    /// Counts the class, the procedure or the operation that a line begins, if it begins one.
    fn add_item(&mut self, form: &Form<&'a [u8]>)
        requires { IsFew self.now }
        ensures known { known_in self.new ≡ record (known_in self.old) {
          classes = (known_in self.old).classes + count_begun item.Class (bytes_of_form form.now);
          procedures = (known_in self.old).procedures
              + count_begun item.Procedure (bytes_of_form form.now);
          operations = (known_in self.old).operations
              + count_begun item.Operation (bytes_of_form form.now);
        } }
        ensures literals { self.new.literals ≡ self.old.literals }
        ensures items { items_before (known_in self.new) ≤ items_before (known_in self.old) + 1 }
    {
        let named = first_name(form).is_some();
        match item_kind_in(form) {
            Some(ItemKind::Class) => self.classes += named as usize,
            Some(ItemKind::Procedure) => self.procedures += named as usize,
            Some(ItemKind::Operation) => self.operations += named as usize,
            None => {}
        }
    }

    /// Notes the kind of the body that a line begins, if it begins one.
    fn add_body(&mut self, form: &Form<&'a [u8]>)
        ensures known { known_in self.new ≡ record (known_in self.old) {
          body = body_after (body_in (bytes_of_form form.now)) (known_in self.old).body;
        } }
        ensures literals { self.new.literals ≡ self.old.literals }
    {
        match body_in(form) {
            Some(body) => self.body = body,
            None => {}
        }
    }

    /// Removes all blocks, because no block is open where a class or a body begins.
    fn close_blocks(&mut self)
        ensures known { known_in self.new ≡ record (known_in self.old) { blocks = [] } }
        ensures items { AreSameItems self.old self.new }
        ensures others { (self.new.fields ≡ self.old.fields)
            × (self.new.literals ≡ self.old.literals) × (self.new.locals ≡ self.old.locals)
            × (self.new.kinds ≡ self.old.kinds) }
    {
        self.blocks.clear();
    }

    /// Begins a class, without fields and with no block open.
    fn begin_class(&mut self)
        ensures known { known_in self.new
            ≡ record (known_in self.old) { fields = []; blocks = [] } }
        ensures literals { self.new.literals ≡ self.old.literals }
    {
        self.fields.clear();
        self.close_blocks();
    }

    /// Adds the field that a line declares.
    fn add_field(&mut self, form: &Form<&'a [u8]>) -> Result<(), AllocError>
        ensures known { OnOk result (known_in self.new ≡ record (known_in self.old) {
          fields = (known_in self.old).fields ++ first_name (bytes_of_form form.now);
        }) }
        ensures literals { self.new.literals ≡ self.old.literals }
    {
        add_some(&mut self.fields, first_name(form))
    }

    /// Begins a body, without locals and with no block open.
    fn begin_body(&mut self)
        ensures known { known_in self.new
            ≡ record (known_in self.old) { locals = []; kinds = []; blocks = [] } }
        ensures items { AreSameItems self.old self.new }
        ensures others { (self.new.fields ≡ self.old.fields)
            × (self.new.literals ≡ self.old.literals) }
    {
        self.locals.clear();
        self.kinds.clear();
        self.close_blocks();
    }

    /// Begins a body whose first locals are the parameters that a line declares.
    fn begin(&mut self, form: &Form<&'a [u8]>) -> Result<(), AllocError>
        ensures known { OnOk result (known_in self.new ≡ record (known_in self.old) {
          locals = parameter_names (bytes_of_form form.now);
          kinds = map kind_of_parameter (parameters_in (bytes_of_form form.now));
          blocks = [];
        }) }
        ensures items { AreSameItems self.old self.new }
        ensures literals { self.new.literals ≡ self.old.literals }
    {
        self.begin_body();
        match form {
            Form::Line(_, operands) => self.add_parameters(operands.as_slice()),
            _ => Ok(()),
        }
    }

    /// Adds the local that a line declares.
    fn add_local(&mut self, form: &Form<&'a [u8]>) -> Result<(), AllocError>
        ensures names { OnOk result (bytes_of_texts self.new.locals.items
            ≡ bytes_of_texts self.old.locals.items ++ first_name (bytes_of_form form.now)) }
        ensures kinds { OnOk result (map bytes_of_kind self.new.kinds.items
            ≡ map bytes_of_kind self.old.kinds.items
            ++ with_one [] (local_kind_in (bytes_of_form form.now))) }
        ensures items { AreSameItems self.old self.new }
        ensures others { (self.new.fields ≡ self.old.fields)
            × (self.new.literals ≡ self.old.literals) × (self.new.blocks ≡ self.old.blocks) }
    {
        add_some(&mut self.locals, first_name(form))?;
        add_some(&mut self.kinds, local_kind_in(form))
    }

    /// Adds the block that a line begins.
    fn add_block(&mut self, form: &Form<&'a [u8]>) -> Result<(), AllocError>
        ensures blocks { OnOk result (self.new.blocks.items
            ≡ self.old.blocks.items ++ line_kind_in form.now) }
        ensures items { AreSameItems self.old self.new }
        ensures others { (self.new.fields ≡ self.old.fields)
            × (self.new.literals ≡ self.old.literals) × (self.new.locals ≡ self.old.locals)
            × (self.new.kinds ≡ self.old.kinds) }
    {
        match form {
            Form::Line(line_kind, _) => add(&mut self.blocks, *line_kind),
            _ => Ok(()),
        }
    }

    /// Adds the literals of one more line.
    fn add_literals(&mut self, form: &Form<&'a [u8]>) -> Result<(), AllocError>
        ensures literals { OnOk result (bytes_of_texts self.new.literals.items
            ≡ bytes_of_texts self.old.literals.items ++ literals_in (bytes_of_form form.now)) }
        ensures known { OnOk result (known_in self.new ≡ record (known_in self.old) {
          literals = (known_in self.old).literals + length (literals_in (bytes_of_form form.now));
        }) }
    {
        match form {
            Form::Line(_, operands) => add_literals(&mut self.literals, operands.as_slice()),
            _ => Ok(()),
        }
    }

    /// Brings the fields, the locals and the open blocks up to date with one more line, depending on the role of the line.
    fn add_of_role(&mut self, role: Role, form: &Form<&'a [u8]>) -> Result<(), AllocError>
        ensures known { OnOk result (known_in self.new ≡ record (known_in self.old) {
          fields = fields_after role (bytes_of_form form.now) (known_in self.old).fields;
          locals = locals_after role (bytes_of_form form.now) (known_in self.old).locals;
          kinds = kinds_after role (bytes_of_form form.now) (known_in self.old).kinds;
          blocks = blocks_after role (bytes_of_form form.now) (known_in self.old).blocks;
        }) }
        ensures literals { OnOk result (self.new.literals ≡ self.old.literals) }
    {
        match role {
            Role::Class => {
                self.begin_class();
                Ok(())
            }
            Role::Field => self.add_field(form),
            Role::Construct | Role::Destroy => {
                self.begin_body();
                Ok(())
            }
            Role::Procedure => self.begin(form),
            Role::Declaration => self.add_local(form),
            Role::Loop | Role::If => self.add_block(form),
            Role::End => {
                self.blocks.pop();
                Ok(())
            }
            _ => Ok(()),
        }
    }

    /// Adds what one more line declares and begins.
    pub(crate) fn add_line(&mut self, form: &Form<&'a [u8]>) -> Result<(), AllocError>
        requires { IsFew self.now }
        ensures known { OnOk result (known_in self.new
            ≡ known_after (known_in self.old) (bytes_of_form form.now)) }
        ensures literals { OnOk result (bytes_of_texts self.new.literals.items
            ≡ bytes_of_texts self.old.literals.items ++ literals_in (bytes_of_form form.now)) }
        ensures items { OnOk result (items_before (known_in self.new)
            ≤ items_before (known_in self.old) + 1) }
    {
        self.add_item(form);
        self.add_body(form);
        self.add_literals(form)?;
        self.add_of_role(role(form), form)
    }
}
