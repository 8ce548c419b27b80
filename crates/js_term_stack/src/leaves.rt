// Terms without operands.

ghost use Rattle.std.specs.Prelude.{◌≡◌, ◌∷◌, [], Some, None, pos, OnOk};
ghost use Rattle.js_term.specs.declared.term.Arguments.TheVariants as args;
ghost use Rattle.js_term.specs.declared.term.Jump.TheVariants as jump;
ghost use Rattle.js_term.specs.declared.term.Literal.TheVariants as literal;
ghost use Rattle.js_term.specs.declared.term.Part.TheVariants as part;
ghost use Rattle.js_term.specs.declared.term.Term.TheVariants as term;
ghost use Rattle.js_term_stack.specs.Stacks as spec;
ghost use Rattle.js_term_stack.specs.declared.piece.Piece.TheVariants as piece;

use crate::piece::Piece;
use crate::stack::Stack;
use js_term::term::{Arguments, Jump, Literal, Part, Template, TemplateKind, Term};
use js_text::native::Native;
use js_text::text::Text;
use js_tree::operator::{BinaryOperator, LogicalOperator, UnaryOperator};
use lava_base::ids::CommonId;
use lava_base::memory::OutOfMemory;
use sqlite_items::{Boxed, Items};

impl Stack {
    pub fn literal(&mut self, value: Literal) -> Result<(), OutOfMemory>
        ensures { OnOk result (self.new ≡ piece.OneTerm (term.Lit value) ∷ self.old) }
    {
        self.add(Term::Lit(value))
    }

    pub fn undefined(&mut self) -> Result<(), OutOfMemory>
        ensures { OnOk result (self.new ≡ piece.OneTerm (term.Lit literal.Undefined) ∷ self.old) }
    {
        self.literal(Literal::Undefined)
    }

    pub fn null(&mut self) -> Result<(), OutOfMemory>
        ensures { OnOk result (self.new ≡ piece.OneTerm (term.Lit literal.Null) ∷ self.old) }
    {
        self.literal(Literal::Null)
    }

    pub fn truth(&mut self, value: bool) -> Result<(), OutOfMemory>
        ensures { OnOk result (self.new ≡ piece.OneTerm (term.Lit (literal.Bool value)) ∷ self.old) }
    {
        self.literal(Literal::Bool(value))
    }

    pub fn integer(&mut self, value: i64) -> Result<(), OutOfMemory>
        ensures { OnOk result (self.new ≡ piece.OneTerm (term.Lit (literal.Int value)) ∷ self.old) }
    {
        self.literal(Literal::Int(value))
    }

    pub fn text(&mut self, value: Text) -> Result<(), OutOfMemory>
        ensures { OnOk result (self.new ≡ piece.OneTerm (term.Lit (literal.Text value)) ∷ self.old) }
    {
        self.literal(Literal::Text(value))
    }

    /// A copy of a text.
    pub fn text_of(&mut self, value: &Text) -> Result<(), OutOfMemory>
        ensures { OnOk result (self.new ≡ piece.OneTerm (term.Lit (literal.Text value.now)) ∷ self.old) }
    {
        let copy = value.copy()?;
        self.text(copy)
    }

    pub fn iterator_symbol(&mut self) -> Result<(), OutOfMemory>
        ensures { OnOk result (self.new ≡ piece.OneTerm (term.Lit literal.Iterator) ∷ self.old) }
    {
        self.literal(Literal::Iterator)
    }

    pub fn common(&mut self, id: CommonId) -> Result<(), OutOfMemory>
        ensures { OnOk result (self.new ≡ piece.OneTerm (term.Lit (literal.Common id)) ∷ self.old) }
    {
        self.literal(Literal::Common(id))
    }

    pub fn outside(&mut self) -> Result<(), OutOfMemory>
        ensures { OnOk result (self.new ≡ piece.OneTerm (term.Outside) ∷ self.old) }
    {
        self.add(Term::Outside)
    }

    pub fn this(&mut self) -> Result<(), OutOfMemory>
        ensures { OnOk result (self.new ≡ piece.OneTerm (term.This) ∷ self.old) }
    {
        self.add(Term::This)
    }

    pub fn new_target(&mut self) -> Result<(), OutOfMemory>
        ensures { OnOk result (self.new ≡ piece.OneTerm (term.NewTarget) ∷ self.old) }
    {
        self.add(Term::NewTarget)
    }

    pub fn fresh(&mut self) -> Result<(), OutOfMemory>
        ensures { OnOk result (self.new ≡ piece.OneTerm (term.Fresh) ∷ self.old) }
    {
        self.add(Term::Fresh)
    }

    pub fn local(&mut self, hops: u32, slot: u32) -> Result<(), OutOfMemory>
        ensures { OnOk result (self.new ≡ piece.OneTerm (term.Local hops slot) ∷ self.old) }
    {
        self.add(Term::Local { hops, slot })
    }

    /// A slot of the innermost scope.
    pub fn here(&mut self, slot: u32) -> Result<(), OutOfMemory>
        ensures { OnOk result (self.new ≡ piece.OneTerm (term.Local 0 slot) ∷ self.old) }
    {
        self.local(0, slot)
    }

    pub fn global(&mut self, name: &Text, soft: bool) -> Result<(), OutOfMemory>
        ensures { OnOk result (self.new ≡ piece.OneTerm (term.Global name.now soft) ∷ self.old) }
    {
        let name = name.copy()?;
        self.add(Term::Global { name, soft })
    }

    pub fn break_to(&mut self, label: Text) -> Result<(), OutOfMemory>
        ensures { OnOk result (self.new ≡ piece.OneTerm (term.Jump (jump.Break label)) ∷ self.old) }
    {
        self.add(Term::Jump(Jump::Break(label)))
    }

    pub fn continue_to(&mut self, label: Text) -> Result<(), OutOfMemory>
        ensures { OnOk result (self.new ≡ piece.OneTerm (term.Jump (jump.Continue label)) ∷ self.old) }
    {
        self.add(Term::Jump(Jump::Continue(label)))
    }
}
