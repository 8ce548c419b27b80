// From terms to rows: what a row names is appended before it.

ghost use Rattle.std.specs.Prelude.{◌≡◌, ◌<◌, length, IfOk};
ghost use Rattle.js_code.specs.Decoded.{layer_of, template_at, term_at};
ghost use Rattle.js_code.specs.Settled.{Extends, Gives, HasTerm, Holds, Places};
ghost use Rattle.js_term.specs.declared.term.Term.{out-Term};

use crate::branching::{branches, guarded, jump, repeated};
use crate::code::Code;
use crate::functions::{class, defined, template_to};
use crate::leaves::literal;
use crate::node::Node;
use crate::operands::{arguments, called, called_on, named, terms, three, two};
use js_term::term::{Jump, Template, Term};
use lava_base::memory::OutOfMemory;
use sqlite_items::Boxed;

/// How deep terms nest at most: sixteen forms for each of the 256 levels of a tree.
pub const TERM_DEPTH: usize = 4096;

impl Code {
    /// Appends a term, and gives its place. Want of memory is answered too where it nests deeper than `TERM_DEPTH`, or a table is full. All that had a place keeps it, whatever the answer; after a refusal there may be rows more, which nothing names.
    pub fn add_term(&mut self, term: &Term) -> Result<u32, OutOfMemory>
        ensures term { IfOk result (λ at. term_at self.new at ≡ term.now) }
        ensures within { IfOk result (λ at. at < length self.new.nodes) }
        ensures extends { Extends self.old self.new }
    {
        term_to(TERM_DEPTH, self, term)
    }

    /// Appends a template, and gives its place. Want of memory is answered too where it nests deeper than `TERM_DEPTH`, or a table is full. All that had a place keeps it, whatever the answer; after a refusal there may be rows more, which nothing names.
    pub fn add_template(&mut self, template: &Template) -> Result<u32, OutOfMemory>
        ensures template { let low = term_at self.new in
            IfOk result (λ at. template_at self.new low at ≡ template.now) }
        ensures within { IfOk result (λ at. at < length self.new.templates) }
        ensures extends { Extends self.old self.new }
    {
        template_to(TERM_DEPTH, self, template)
    }
}

/// Appends a term whose operands nest so deep at most.
#[cycle(compile)]
pub(crate) fn term_to(depth: usize, code: &mut Code, term: &Term) -> Result<u32, OutOfMemory>
    ensures extends { Extends code.old code.new }
    ensures term { Places result code.new term.now }
{
    let row = row(depth, code, term)?;
    code.push_node(row)
}

/// Appends a term that nests so deep at most.
#[cycle(compile)]
pub(crate) fn place(depth: usize, code: &mut Code, term: &Boxed<Term>) -> Result<u32, OutOfMemory>
    ensures extends { Extends code.old code.new }
    ensures term { Gives result (λ at. λ c low. low at) code.new term.now }
{
    if depth == 0 {
        return Err(OutOfMemory);
    }
    term_to(depth - 1, code, term.get())
}

/// The row of a term, of which all that it names is appended.
#[cycle(compile)]
pub(crate) fn row(depth: usize, code: &mut Code, term: &Term) -> Result<Node, OutOfMemory>
    ensures extends { Extends code.old code.new }
    ensures row { Gives result (λ row. λ c low. layer_of c low row) code.new (out-Term term.now) }
{
    match term {
        Term::Lit(value) => literal(code, value),
        Term::Outside => Ok(Node::Outside),
        Term::This => Ok(Node::This),
        Term::NewTarget => Ok(Node::NewTarget),
        Term::Local { hops, slot } => Ok(Node::Local {
            hops: *hops,
            slot: *slot,
        }),
        Term::Global { name, soft } => {
            let name = code.push_text(name)?;
            Ok(Node::Global { name, soft: *soft })
        }
        Term::SetLocal {
            hops,
            slot,
            constant,
            value,
        } => {
            let value = place(depth, code, value)?;
            Ok(Node::SetLocal {
                hops: *hops,
                slot: *slot,
                constant: *constant,
                value,
            })
        }
        Term::SetGlobal { name, value } => {
            let (name, value) = named(depth, code, name, value)?;
            Ok(Node::SetGlobal { name, value })
        }
        Term::Init { hops, slot, value } => {
            let value = place(depth, code, value)?;
            Ok(Node::Init {
                hops: *hops,
                slot: *slot,
                value,
            })
        }
        Term::Get { object, key } => {
            let (object, key) = two(depth, code, object, key)?;
            Ok(Node::Get { object, key })
        }
        Term::Put { object, key, value } => {
            let (object, key, value) = three(depth, code, object, key, value)?;
            Ok(Node::Put { object, key, value })
        }
        Term::Delete { object, key } => {
            let (object, key) = two(depth, code, object, key)?;
            Ok(Node::Delete { object, key })
        }
        Term::SuperGet { key } => {
            let key = place(depth, code, key)?;
            Ok(Node::SuperGet { key })
        }
        Term::Call {
            callee,
            arguments: given,
        } => {
            let (callee, arguments) = called(depth, code, callee, given)?;
            Ok(Node::Call { callee, arguments })
        }
        Term::CallOn {
            object,
            key,
            arguments: given,
        } => {
            let (object, key, arguments) = called_on(depth, code, object, key, given)?;
            Ok(Node::CallOn {
                object,
                key,
                arguments,
            })
        }
        Term::CallSuper {
            key,
            arguments: given,
        } => {
            let (key, arguments) = called(depth, code, key, given)?;
            Ok(Node::CallSuper { key, arguments })
        }
        Term::New {
            callee,
            arguments: given,
        } => {
            let (callee, arguments) = called(depth, code, callee, given)?;
            Ok(Node::New { callee, arguments })
        }
        Term::SuperNew { arguments: given } => {
            let arguments = arguments(depth, code, given)?;
            Ok(Node::SuperNew { arguments })
        }
        Term::Unary { operator, operand } => {
            let operand = place(depth, code, operand)?;
            Ok(Node::Unary {
                operator: *operator,
                operand,
            })
        }
        Term::Binary {
            operator,
            left,
            right,
        } => {
            let (left, right) = two(depth, code, left, right)?;
            Ok(Node::Binary {
                operator: *operator,
                left,
                right,
            })
        }
        Term::Short {
            operator,
            left,
            right,
        } => {
            let (left, right) = two(depth, code, left, right)?;
            Ok(Node::Short {
                operator: *operator,
                left,
                right,
            })
        }
        Term::If {
            test,
            consequent,
            alternate,
        } => branches(depth, code, test, consequent, alternate),
        Term::Func(template) => {
            let template = template_to(depth, code, template.get())?;
            Ok(Node::Func { template })
        }
        Term::Define {
            object,
            parts: list,
        } => {
            let (object, start, count) = defined(depth, code, object, list)?;
            Ok(Node::Define {
                object,
                start,
                count,
            })
        }
        Term::Class {
            name,
            parent,
            constructor,
            parts: list,
        } => {
            let class = class(depth, code, name, parent, constructor, list)?;
            Ok(Node::Class { class })
        }
        Term::Native { native, operands } => {
            let (start, count) = terms(depth, code, operands)?;
            Ok(Node::Native {
                native: *native,
                start,
                count,
            })
        }
        Term::Seq(list) => {
            let (start, count) = terms(depth, code, list)?;
            Ok(Node::Seq { start, count })
        }
        Term::Scope { slots, body } => {
            let body = place(depth, code, body)?;
            Ok(Node::Scope {
                slots: *slots,
                body,
            })
        }
        Term::Fresh => Ok(Node::Fresh),
        Term::Loop {
            labels: names,
            tests_first,
            test,
            update,
            body,
        } => {
            let turns = repeated(depth, code, names, *tests_first, test, update, body)?;
            Ok(Node::Loop {
                turns,
                tests_first: *tests_first,
            })
        }
        Term::Label { label, body } => {
            let (label, body) = named(depth, code, label, body)?;
            Ok(Node::Label { label, body })
        }
        Term::Jump(target) => jump(depth, code, target),
        Term::Throw(value) => {
            let value = place(depth, code, value)?;
            Ok(Node::Throw { value })
        }
        Term::Try {
            body,
            handler,
            finalizer,
        } => {
            let guarded = guarded(depth, code, body, handler, finalizer)?;
            Ok(Node::Try { guarded })
        }
    }
}
