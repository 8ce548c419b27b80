// Lists of terms and of parts.

ghost use Rattle.std.specs.Prelude.{◌≡◌, ◌∷◌, [], Some, None, pos, OnOk};
ghost use Rattle.js_term.specs.declared.term.Arguments.TheVariants as args;
ghost use Rattle.js_term.specs.declared.term.Jump.TheVariants as jump;
ghost use Rattle.js_term.specs.declared.term.Literal.TheVariants as literal;
ghost use Rattle.js_term.specs.declared.term.Part.TheVariants as part;
ghost use Rattle.js_term.specs.declared.term.Term.TheVariants as term;
ghost use Rattle.js_term_stack.specs.Stacks as spec;
ghost use Rattle.js_term_stack.specs.declared.piece.Piece.TheVariants as piece;

use crate::piece::Piece;
use crate::stack::Stack;
use js_term::term::{Arguments, Jump, Literal, Part, Template, TemplateKind, Term};
use js_text::native::Native;
use js_text::text::Text;
use js_tree::operator::{BinaryOperator, LogicalOperator, UnaryOperator};
use lava_base::ids::CommonId;
use lava_base::memory::OutOfMemory;
use sqlite_items::{Boxed, Items};

impl Stack {
    /// Begins a list of terms.
    pub fn begin(&mut self) -> Result<(), OutOfMemory>
        ensures { OnOk result (self.new ≡ piece.TermList [] ∷ self.old) }
    {
        let list = Items::new(self.alloc());
        self.push(Piece::TermList(list))
    }

    /// Puts the last term at the end of the list below it.
    pub fn append(&mut self) -> Result<(), OutOfMemory>
        ensures { OnOk result (self.new ≡ spec.appended self.old) }
    {
        let term = self.take_term()?;
        let mut list = self.take_list()?;
        list.push(term)?;
        self.push(Piece::TermList(list))
    }

    pub fn list_two(&mut self) -> Result<(), OutOfMemory>
        ensures { OnOk result (self.new ≡ spec.listed_two self.old) }
    {
        let second = self.take_term()?;
        let first = self.take_term()?;
        let mut list = Items::new(self.alloc());
        list.push(first)?;
        list.push(second)?;
        self.push(Piece::TermList(list))
    }

    pub fn list_three(&mut self) -> Result<(), OutOfMemory>
        ensures { OnOk result (self.new ≡ spec.listed_three self.old) }
    {
        let third = self.take_term()?;
        let second = self.take_term()?;
        let first = self.take_term()?;
        let mut list = Items::new(self.alloc());
        list.push(first)?;
        list.push(second)?;
        list.push(third)?;
        self.push(Piece::TermList(list))
    }

    pub fn seq(&mut self) -> Result<(), OutOfMemory>
        ensures { OnOk result (self.new ≡ spec.on_list term.Seq self.old) }
    {
        let list = self.take_list()?;
        self.add(Term::Seq(list))
    }

    pub fn native(&mut self, native: Native) -> Result<(), OutOfMemory>
        ensures { OnOk result (self.new ≡ spec.on_list (term.Native native) self.old) }
    {
        let operands = self.take_list()?;
        self.add(Term::Native { native, operands })
    }

    /// A native with the last term as its operand.
    pub fn native_of_one(&mut self, native: Native) -> Result<(), OutOfMemory>
        ensures { OnOk result (self.new ≡ spec.on_one (λ t. term.Native native (t ∷ [])) self.old) }
    {
        let operand = self.take_term()?;
        let mut operands = Items::new(self.alloc());
        operands.push(operand)?;
        self.add(Term::Native { native, operands })
    }

    pub fn scope(&mut self, slots: u32) -> Result<(), OutOfMemory>
        ensures { OnOk result (self.new ≡ spec.on_list (λ l. term.Scope slots (term.Seq l)) self.old) }
    {
        let list = self.take_list()?;
        let body = Boxed::new(self.alloc(), Term::Seq(list))?;
        self.add(Term::Scope { slots, body })
    }

    /// Begins a list of parts.
    pub fn begin_parts(&mut self) -> Result<(), OutOfMemory>
        ensures { OnOk result (self.new ≡ piece.PartList [] ∷ self.old) }
    {
        let list = Items::new(self.alloc());
        self.push(Piece::PartList(list))
    }

    fn append_part(&mut self, part: Part) -> Result<(), OutOfMemory>
        ensures { OnOk result (self.new ≡ spec.extended_parts (part ∷ []) self.old) }
    {
        let mut list = self.take_parts()?;
        list.push(part)?;
        self.push(Piece::PartList(list))
    }

    pub fn hole(&mut self) -> Result<(), OutOfMemory>
        ensures { OnOk result (self.new ≡ spec.extended_parts (part.Hole ∷ []) self.old) }
    {
        self.append_part(Part::Hole)
    }

    pub fn item(&mut self) -> Result<(), OutOfMemory>
        ensures { OnOk result (self.new ≡ spec.term_part part.Item self.old) }
    {
        let value = self.take_term()?;
        self.append_part(Part::Item(value))
    }

    pub fn spread(&mut self) -> Result<(), OutOfMemory>
        ensures { OnOk result (self.new ≡ spec.term_part part.Spread self.old) }
    {
        let value = self.take_term()?;
        self.append_part(Part::Spread(value))
    }

    pub fn data(&mut self) -> Result<(), OutOfMemory>
        ensures { OnOk result (self.new ≡ spec.data_part self.old) }
    {
        let value = self.take_term()?;
        let key = self.take_term()?;
        self.append_part(Part::Data { key, value })
    }

    pub fn method(&mut self, is_static: bool) -> Result<(), OutOfMemory>
        ensures { OnOk result (self.new ≡ spec.function_part (part.Method is_static) self.old) }
    {
        let template = self.take_template()?;
        let key = self.take_term()?;
        self.append_part(Part::Method {
            is_static,
            key,
            template,
        })
    }

    pub fn getter(&mut self, is_static: bool) -> Result<(), OutOfMemory>
        ensures { OnOk result (self.new ≡ spec.function_part (part.Getter is_static) self.old) }
    {
        let template = self.take_template()?;
        let key = self.take_term()?;
        self.append_part(Part::Getter {
            is_static,
            key,
            template,
        })
    }

    pub fn setter(&mut self, is_static: bool) -> Result<(), OutOfMemory>
        ensures { OnOk result (self.new ≡ spec.function_part (part.Setter is_static) self.old) }
    {
        let template = self.take_template()?;
        let key = self.take_term()?;
        self.append_part(Part::Setter {
            is_static,
            key,
            template,
        })
    }

    pub fn define(&mut self) -> Result<(), OutOfMemory>
        ensures { OnOk result (self.new ≡ spec.defined self.old) }
    {
        let parts = self.take_parts()?;
        let object = self.take_term()?;
        self.add(Term::Define { object, parts })
    }
}
