// Calls, functions and classes.

ghost use Rattle.std.specs.Prelude.{◌≡◌, ◌∷◌, [], Some, None, pos, OnOk};
ghost use Rattle.js_term.specs.declared.term.Arguments.TheVariants as args;
ghost use Rattle.js_term.specs.declared.term.Jump.TheVariants as jump;
ghost use Rattle.js_term.specs.declared.term.Literal.TheVariants as literal;
ghost use Rattle.js_term.specs.declared.term.Part.TheVariants as part;
ghost use Rattle.js_term.specs.declared.term.Term.TheVariants as term;
ghost use Rattle.js_term_stack.specs.Stacks as spec;
ghost use Rattle.js_term_stack.specs.declared.piece.Piece.TheVariants as piece;

use crate::pending::Pending;
use crate::piece::Piece;
use crate::stack::Stack;
use js_term::term::{Arguments, Jump, Literal, Part, Template, TemplateKind, Term};
use js_text::native::Native;
use js_text::text::Text;
use js_tree::operator::{BinaryOperator, LogicalOperator, UnaryOperator};
use lava_base::ids::CommonId;
use lava_base::memory::OutOfMemory;
use sqlite_items::{Boxed, Items};

impl Stack {
    /// The last list, as arguments.
    pub fn listed(&mut self) -> Result<(), OutOfMemory>
        ensures { OnOk result (self.new ≡ spec.listed self.old) }
    {
        let list = self.take_list()?;
        self.push(Piece::ArgumentList(Arguments::Listed(list)))
    }

    /// The last term, as the array of the arguments.
    pub fn spread_out(&mut self) -> Result<(), OutOfMemory>
        ensures { OnOk result (self.new ≡ spec.spread_out self.old) }
    {
        let array = self.take_term()?;
        self.push(Piece::ArgumentList(Arguments::Of(array)))
    }

    pub fn super_new(&mut self) -> Result<(), OutOfMemory>
        ensures { OnOk result (self.new ≡ spec.on_arguments term.SuperNew self.old) }
    {
        let arguments = self.take_arguments()?;
        self.add(Term::SuperNew { arguments })
    }

    pub fn call(&mut self) -> Result<(), OutOfMemory>
        ensures { OnOk result (self.new ≡ spec.called term.Call self.old) }
    {
        let arguments = self.take_arguments()?;
        let callee = self.take_term()?;
        self.add(Term::Call { callee, arguments })
    }

    pub fn call_super(&mut self) -> Result<(), OutOfMemory>
        ensures { OnOk result (self.new ≡ spec.called term.CallSuper self.old) }
    {
        let arguments = self.take_arguments()?;
        let key = self.take_term()?;
        self.add(Term::CallSuper { key, arguments })
    }

    fn add_common_call(&mut self, id: CommonId, list: Items<Boxed<Term>>) -> Result<(), OutOfMemory>
        ensures { let made = term.Call (term.Lit (literal.Common id)) (args.Listed list) in
            OnOk result (self.new ≡ piece.OneTerm made ∷ self.old) }
    {
        let callee = Boxed::new(self.alloc(), Term::Lit(Literal::Common(id)))?;
        let arguments = Arguments::Listed(list);
        self.add(Term::Call { callee, arguments })
    }

    /// A call of a common function with the last list as its arguments.
    pub fn call_common(&mut self, id: CommonId) -> Result<(), OutOfMemory>
        ensures { OnOk result (self.new ≡ spec.on_list
            (λ l. term.Call (term.Lit (literal.Common id)) (args.Listed l)) self.old) }
    {
        let list = self.take_list()?;
        self.add_common_call(id, list)
    }

    /// A call of a common function with the last term as its argument.
    pub fn call_common_on(&mut self, id: CommonId) -> Result<(), OutOfMemory>
        ensures { let callee = term.Lit (literal.Common id) in
            OnOk result (self.new ≡ spec.on_one
            (λ t. term.Call callee (args.Listed (t ∷ []))) self.old) }
    {
        let argument = self.take_term()?;
        let mut list = Items::new(self.alloc());
        list.push(argument)?;
        self.add_common_call(id, list)
    }

    pub fn new_object(&mut self) -> Result<(), OutOfMemory>
        ensures { OnOk result (self.new ≡ spec.called term.New self.old) }
    {
        let arguments = self.take_arguments()?;
        let callee = self.take_term()?;
        self.add(Term::New { callee, arguments })
    }

    pub fn call_on(&mut self) -> Result<(), OutOfMemory>
        ensures { OnOk result (self.new ≡ spec.called_on self.old) }
    {
        let arguments = self.take_arguments()?;
        let key = self.take_term()?;
        let object = self.take_term()?;
        self.add(Term::CallOn {
            object,
            key,
            arguments,
        })
    }

    pub fn func(&mut self) -> Result<(), OutOfMemory>
        ensures { OnOk result (self.new ≡ spec.on_template term.Func self.old) }
    {
        let template = self.take_template()?;
        self.add(Term::Func(template))
    }

    pub fn some_template(&mut self) -> Result<(), OutOfMemory>
        ensures { OnOk result (self.new ≡ spec.some_template self.old) }
    {
        let template = self.take_template()?;
        self.push(Piece::MaybeTemplate(Some(template)))
    }

    pub fn no_template(&mut self) -> Result<(), OutOfMemory>
        ensures { OnOk result (self.new ≡ piece.MaybeTemplate None ∷ self.old) }
    {
        self.push(Piece::MaybeTemplate(None))
    }

    pub fn class(&mut self, name: Text) -> Result<(), OutOfMemory>
        ensures { OnOk result (self.new ≡ spec.classed (term.Class name) self.old) }
    {
        let parts = self.take_parts()?;
        let constructor = self.take_maybe_template()?;
        let parent = self.take_maybe()?;
        self.add(Term::Class {
            name,
            parent,
            constructor,
            parts,
        })
    }

    /// The last two terms, as a property that a call may follow.
    pub fn reference(&mut self) -> Result<(), OutOfMemory>
        ensures { OnOk result (self.new ≡ spec.referenced self.old) }
    {
        let key = self.take_term()?;
        let object = self.take_term()?;
        self.push(Piece::OnePending(Pending::Reference { object, key }))
    }

    /// The last term, as the key of a property of `super` that a call may follow.
    pub fn super_reference(&mut self) -> Result<(), OutOfMemory>
        ensures { OnOk result (self.new ≡ spec.super_referenced self.old) }
    {
        let key = self.take_term()?;
        self.push(Piece::OnePending(Pending::SuperReference(key)))
    }

    /// The last term, as the value of a chain so far.
    pub fn settled(&mut self) -> Result<(), OutOfMemory>
        ensures { OnOk result (self.new ≡ spec.settled_chain self.old) }
    {
        let value = self.take_term()?;
        self.push(Piece::OnePending(Pending::Settled(value)))
    }
}
