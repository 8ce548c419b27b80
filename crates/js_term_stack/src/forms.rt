// Terms with operands.

ghost use Rattle.std.specs.Prelude.{◌≡◌, ◌∷◌, [], Some, None, pos, OnOk};
ghost use Rattle.js_term.specs.declared.term.Arguments.TheVariants as args;
ghost use Rattle.js_term.specs.declared.term.Jump.TheVariants as jump;
ghost use Rattle.js_term.specs.declared.term.Literal.TheVariants as literal;
ghost use Rattle.js_term.specs.declared.term.Part.TheVariants as part;
ghost use Rattle.js_term.specs.declared.term.Term.TheVariants as term;
ghost use Rattle.js_term_stack.specs.Stacks as spec;
ghost use Rattle.js_term_stack.specs.declared.piece.Piece.TheVariants as piece;

use crate::piece::Piece;
use crate::stack::Stack;
use js_term::term::{Arguments, Jump, Literal, Part, Template, TemplateKind, Term};
use js_text::native::Native;
use js_text::text::Text;
use js_tree::operator::{BinaryOperator, LogicalOperator, UnaryOperator};
use lava_base::ids::CommonId;
use lava_base::memory::OutOfMemory;
use sqlite_items::{Boxed, Items};

impl Stack {
    pub fn swap(&mut self) -> Result<(), OutOfMemory>
        ensures { OnOk result (self.new ≡ spec.swapped self.old) }
    {
        match self.pop() {
            None => Err(OutOfMemory),
            Some(first) => self.put_below(first),
        }
    }

    fn put_below(&mut self, piece: Piece) -> Result<(), OutOfMemory>
        ensures { OnOk result (self.new ≡ spec.swapped (piece ∷ self.old)) }
    {
        match self.pop() {
            None => Err(OutOfMemory),
            Some(second) => {
                self.push(piece)?;
                self.push(second)
            }
        }
    }

    pub fn set_local(&mut self, hops: u32, slot: u32, constant: bool) -> Result<(), OutOfMemory>
        ensures { OnOk result (self.new ≡ spec.on_one (term.SetLocal hops slot constant) self.old) }
    {
        let value = self.take_term()?;
        self.add(Term::SetLocal {
            hops,
            slot,
            constant,
            value,
        })
    }

    pub fn set_global(&mut self, name: &Text) -> Result<(), OutOfMemory>
        ensures { OnOk result (self.new ≡ spec.on_one (term.SetGlobal name.now) self.old) }
    {
        let name = name.copy()?;
        let value = self.take_term()?;
        self.add(Term::SetGlobal { name, value })
    }

    pub fn init(&mut self, hops: u32, slot: u32) -> Result<(), OutOfMemory>
        ensures { OnOk result (self.new ≡ spec.on_one (term.Init hops slot) self.old) }
    {
        let value = self.take_term()?;
        self.add(Term::Init { hops, slot, value })
    }

    pub fn init_here(&mut self, slot: u32) -> Result<(), OutOfMemory>
        ensures { OnOk result (self.new ≡ spec.on_one (term.Init 0 slot) self.old) }
    {
        self.init(0, slot)
    }

    pub fn super_get(&mut self) -> Result<(), OutOfMemory>
        ensures { OnOk result (self.new ≡ spec.on_one term.SuperGet self.old) }
    {
        let key = self.take_term()?;
        self.add(Term::SuperGet { key })
    }

    pub fn unary(&mut self, operator: UnaryOperator) -> Result<(), OutOfMemory>
        ensures { OnOk result (self.new ≡ spec.on_one (term.Unary operator) self.old) }
    {
        let operand = self.take_term()?;
        self.add(Term::Unary { operator, operand })
    }

    pub fn throw(&mut self) -> Result<(), OutOfMemory>
        ensures { OnOk result (self.new ≡ spec.on_one (term.Throw) self.old) }
    {
        let value = self.take_term()?;
        self.add(Term::Throw(value))
    }

    pub fn label(&mut self, label: &Text) -> Result<(), OutOfMemory>
        ensures { OnOk result (self.new ≡ spec.on_one (term.Label label.now) self.old) }
    {
        let label = label.copy()?;
        let body = self.take_term()?;
        self.add(Term::Label { label, body })
    }

    pub fn get(&mut self) -> Result<(), OutOfMemory>
        ensures { OnOk result (self.new ≡ spec.on_two (term.Get) self.old) }
    {
        let key = self.take_term()?;
        let object = self.take_term()?;
        self.add(Term::Get { object, key })
    }

    pub fn delete(&mut self) -> Result<(), OutOfMemory>
        ensures { OnOk result (self.new ≡ spec.on_two (term.Delete) self.old) }
    {
        let key = self.take_term()?;
        let object = self.take_term()?;
        self.add(Term::Delete { object, key })
    }

    pub fn binary(&mut self, operator: BinaryOperator) -> Result<(), OutOfMemory>
        ensures { OnOk result (self.new ≡ spec.on_two (term.Binary operator) self.old) }
    {
        let right = self.take_term()?;
        let left = self.take_term()?;
        self.add(Term::Binary {
            operator,
            left,
            right,
        })
    }

    pub fn short(&mut self, operator: LogicalOperator) -> Result<(), OutOfMemory>
        ensures { OnOk result (self.new ≡ spec.on_two (term.Short operator) self.old) }
    {
        let right = self.take_term()?;
        let left = self.take_term()?;
        self.add(Term::Short {
            operator,
            left,
            right,
        })
    }

    pub fn put(&mut self) -> Result<(), OutOfMemory>
        ensures { OnOk result (self.new ≡ spec.on_three term.Put self.old) }
    {
        let value = self.take_term()?;
        let key = self.take_term()?;
        let object = self.take_term()?;
        self.add(Term::Put { object, key, value })
    }

    /// The same, of a value that was made before object and key.
    pub fn put_first(&mut self) -> Result<(), OutOfMemory>
        ensures { OnOk result (self.new ≡ spec.put_first self.old) }
    {
        let key = self.take_term()?;
        let object = self.take_term()?;
        let value = self.take_term()?;
        self.add(Term::Put { object, key, value })
    }

    /// The last term, where one may be missing.
    pub fn some(&mut self) -> Result<(), OutOfMemory>
        ensures { OnOk result (self.new ≡ spec.some_term self.old) }
    {
        let value = self.take_term()?;
        self.push(Piece::MaybeTerm(Some(value)))
    }

    /// No term, where one may be missing.
    pub fn none(&mut self) -> Result<(), OutOfMemory>
        ensures { OnOk result (self.new ≡ piece.MaybeTerm None ∷ self.old) }
    {
        self.push(Piece::MaybeTerm(None))
    }

    /// A test, what follows it, and what may follow otherwise.
    pub fn choice(&mut self) -> Result<(), OutOfMemory>
        ensures { OnOk result (self.new ≡ spec.chosen self.old) }
    {
        let alternate = self.take_maybe()?;
        let consequent = self.take_term()?;
        let test = self.take_term()?;
        self.add(Term::If {
            test,
            consequent,
            alternate,
        })
    }

    pub fn try_term(&mut self) -> Result<(), OutOfMemory>
        ensures { OnOk result (self.new ≡ spec.tried self.old) }
    {
        let finalizer = self.take_maybe()?;
        let handler = self.take_maybe()?;
        let body = self.take_term()?;
        self.add(Term::Try {
            body,
            handler,
            finalizer,
        })
    }

    pub fn loop_term(&mut self, labels: Items<Text>, tests_first: bool) -> Result<(), OutOfMemory>
        ensures { OnOk result (self.new ≡ spec.looped (term.Loop labels tests_first) self.old) }
    {
        let body = self.take_term()?;
        let update = self.take_maybe()?;
        let test = self.take_term()?;
        self.add(Term::Loop {
            labels,
            tests_first,
            test,
            update,
            body,
        })
    }

    pub fn return_term(&mut self) -> Result<(), OutOfMemory>
        ensures { OnOk result (self.new ≡ spec.on_maybe (λ v. term.Jump (jump.Return v)) self.old) }
    {
        let value = self.take_maybe()?;
        self.add(Term::Jump(Jump::Return(value)))
    }
}
