// What stands below a node's line.

ghost use Rattle.std.specs.Prelude.{◌≡◌, ◌++◌, ◌∷◌, [], map, OnOk, MatchOption};
ghost use Rattle.js_term.specs.declared.term.Part.{out-Part};
ghost use Rattle.js_term.specs.declared.term.Term.{out-Term};
ghost use Rattle.js_tree_lines.specs.Lines as spec;
ghost use Rattle.js_tree_lines.specs.Pending_lines.{at_depth, line_of, pending};

use crate::node::{Node, PendingLine};
use js_term::term::{Arguments, Jump, Part, Template, Term};
use lava_base::memory::OutOfMemory;
use sqlite_items::Boxed;

/// Puts a node before all others.
#[tactic(auto, using(crate::proofs::Pending_laws::pending_push))]
pub fn push<'a>(
    stack: &mut Vec<PendingLine<'a>>,
    depth: usize,
    node: Node<'a>,
) -> Result<(), OutOfMemory>
    ensures { OnOk result (pending stack.new.items
        ≡ at_depth depth (spec.node_of node.entry) ∷ pending stack.old.items) }
{
    stack.push(PendingLine { depth, node })?;
    Ok(())
}

/// Takes the first node.
#[tactic(auto, using(crate::proofs::Pending_laws::pending_push))]
pub fn pop<'a>(stack: &mut Vec<PendingLine<'a>>) -> Option<PendingLine<'a>>
    ensures { MatchOption result (pending stack.old.items ≡ [])
        (λ first. pending stack.old.items ≡ line_of first ∷ pending stack.new.items) }
{
    stack.pop()
}

fn term<'a>(
    stack: &mut Vec<PendingLine<'a>>,
    depth: usize,
    term: &'a Boxed<Term>,
) -> Result<(), OutOfMemory>
    ensures { let more = map (at_depth depth) (spec.OneTerm term.now ∷ []) in
        OnOk result (pending stack.new.items ≡ more ++ pending stack.old.items) }
{
    push(stack, depth, Node::OneTerm(term.get()))
}

fn maybe_term<'a>(
    stack: &mut Vec<PendingLine<'a>>,
    depth: usize,
    term: &'a Option<Boxed<Term>>,
) -> Result<(), OutOfMemory>
    ensures { let more = map (at_depth depth) (spec.maybe_term term.now ∷ []) in
        OnOk result (pending stack.new.items ≡ more ++ pending stack.old.items) }
{
    match term {
        None => push(stack, depth, Node::Absent),
        Some(term) => push(stack, depth, Node::OneTerm(term.get())),
    }
}

fn maybe_template<'a>(
    stack: &mut Vec<PendingLine<'a>>,
    depth: usize,
    template: &'a Option<Boxed<Template>>,
) -> Result<(), OutOfMemory>
    ensures { let more = map (at_depth depth) (spec.maybe_template template.now ∷ []) in
        OnOk result (pending stack.new.items ≡ more ++ pending stack.old.items) }
{
    match template {
        None => push(stack, depth, Node::Absent),
        Some(template) => push(stack, depth, Node::OneTemplate(template.get())),
    }
}

#[tactic(auto, using(crate::proofs::Pending_laws::before_of))]
fn terms<'a>(
    stack: &mut Vec<PendingLine<'a>>,
    depth: usize,
    list: &'a [Boxed<Term>],
) -> Result<(), OutOfMemory>
    ensures { let more = map (at_depth depth) (map spec.OneTerm list.now) in
        OnOk result (pending stack.new.items ≡ more ++ pending stack.old.items) }
{
    let mut at = list.len();
    while 0 < at {
        at -= 1;
        term(stack, depth, &list[at])?;
    }
    Ok(())
}

#[tactic(auto, using(crate::proofs::Pending_laws::before_of))]
fn parts<'a>(
    stack: &mut Vec<PendingLine<'a>>,
    depth: usize,
    list: &'a [Part],
) -> Result<(), OutOfMemory>
    ensures { let more = map (at_depth depth) (map spec.OnePart list.now) in
        OnOk result (pending stack.new.items ≡ more ++ pending stack.old.items) }
{
    let mut at = list.len();
    while 0 < at {
        at -= 1;
        push(stack, depth, Node::OnePart(&list[at]))?;
    }
    Ok(())
}

fn arguments<'a>(
    stack: &mut Vec<PendingLine<'a>>,
    depth: usize,
    list: &'a Arguments,
) -> Result<(), OutOfMemory>
    ensures { let more = map (at_depth depth) (spec.argument_nodes list.now) in
        OnOk result (pending stack.new.items ≡ more ++ pending stack.old.items) }
{
    match list {
        Arguments::Listed(items) => terms(stack, depth, items.as_slice()),
        Arguments::Of(array) => push(stack, depth, Node::SpreadArray(array.get())),
    }
}

fn two<'a>(
    stack: &mut Vec<PendingLine<'a>>,
    depth: usize,
    a: &'a Boxed<Term>,
    b: &'a Boxed<Term>,
) -> Result<(), OutOfMemory>
    ensures { let more = map (at_depth depth) (spec.OneTerm a.now ∷ spec.OneTerm b.now ∷ []) in
        OnOk result (pending stack.new.items ≡ more ++ pending stack.old.items) }
{
    term(stack, depth, b)?;
    term(stack, depth, a)
}

fn three<'a>(
    stack: &mut Vec<PendingLine<'a>>,
    depth: usize,
    a: &'a Boxed<Term>,
    b: &'a Boxed<Term>,
    c: &'a Boxed<Term>,
) -> Result<(), OutOfMemory>
    ensures { let more = map (at_depth depth) (spec.OneTerm a.now ∷ spec.OneTerm b.now ∷
        spec.OneTerm c.now ∷ []) in
        OnOk result (pending stack.new.items ≡ more ++ pending stack.old.items) }
{
    term(stack, depth, c)?;
    two(stack, depth, a, b)
}

fn call<'a>(
    stack: &mut Vec<PendingLine<'a>>,
    depth: usize,
    callee: &'a Boxed<Term>,
    list: &'a Arguments,
) -> Result<(), OutOfMemory>
    ensures { let more = map (at_depth depth) (spec.OneTerm callee.now ∷
        spec.argument_nodes list.now) in
        OnOk result (pending stack.new.items ≡ more ++ pending stack.old.items) }
{
    arguments(stack, depth, list)?;
    term(stack, depth, callee)
}

fn call_on<'a>(
    stack: &mut Vec<PendingLine<'a>>,
    depth: usize,
    object: &'a Boxed<Term>,
    key: &'a Boxed<Term>,
    list: &'a Arguments,
) -> Result<(), OutOfMemory>
    ensures { let more = map (at_depth depth) (spec.OneTerm object.now ∷ spec.OneTerm key.now ∷
        spec.argument_nodes list.now) in
        OnOk result (pending stack.new.items ≡ more ++ pending stack.old.items) }
{
    arguments(stack, depth, list)?;
    two(stack, depth, object, key)
}

fn choice<'a>(
    stack: &mut Vec<PendingLine<'a>>,
    depth: usize,
    test: &'a Boxed<Term>,
    consequent: &'a Boxed<Term>,
    alternate: &'a Option<Boxed<Term>>,
) -> Result<(), OutOfMemory>
    ensures { let more = map (at_depth depth) (spec.OneTerm test.now ∷ spec.OneTerm consequent.now ∷
        spec.maybe_term alternate.now ∷ []) in
        OnOk result (pending stack.new.items ≡ more ++ pending stack.old.items) }
{
    maybe_term(stack, depth, alternate)?;
    two(stack, depth, test, consequent)
}

fn looped<'a>(
    stack: &mut Vec<PendingLine<'a>>,
    depth: usize,
    test: &'a Boxed<Term>,
    update: &'a Option<Boxed<Term>>,
    body: &'a Boxed<Term>,
) -> Result<(), OutOfMemory>
    ensures { let more = map (at_depth depth) (spec.OneTerm test.now ∷ spec.maybe_term update.now ∷
        spec.OneTerm body.now ∷ []) in
        OnOk result (pending stack.new.items ≡ more ++ pending stack.old.items) }
{
    term(stack, depth, body)?;
    maybe_term(stack, depth, update)?;
    term(stack, depth, test)
}

fn tried<'a>(
    stack: &mut Vec<PendingLine<'a>>,
    depth: usize,
    body: &'a Boxed<Term>,
    handler: &'a Option<Boxed<Term>>,
    finalizer: &'a Option<Boxed<Term>>,
) -> Result<(), OutOfMemory>
    ensures { let more = map (at_depth depth) (spec.OneTerm body.now ∷ spec.maybe_term handler.now ∷
        spec.maybe_term finalizer.now ∷ []) in
        OnOk result (pending stack.new.items ≡ more ++ pending stack.old.items) }
{
    maybe_term(stack, depth, finalizer)?;
    maybe_term(stack, depth, handler)?;
    term(stack, depth, body)
}

fn define<'a>(
    stack: &mut Vec<PendingLine<'a>>,
    depth: usize,
    object: &'a Boxed<Term>,
    list: &'a [Part],
) -> Result<(), OutOfMemory>
    ensures { let more = map (at_depth depth) (spec.OneTerm object.now ∷
        map spec.OnePart list.now) in
        OnOk result (pending stack.new.items ≡ more ++ pending stack.old.items) }
{
    parts(stack, depth, list)?;
    term(stack, depth, object)
}

fn class<'a>(
    stack: &mut Vec<PendingLine<'a>>,
    depth: usize,
    parent: &'a Option<Boxed<Term>>,
    constructor: &'a Option<Boxed<Template>>,
    list: &'a [Part],
) -> Result<(), OutOfMemory>
    ensures { let more = map (at_depth depth) (spec.maybe_term parent.now ∷
        spec.maybe_template constructor.now ∷
        map spec.OnePart list.now) in
        OnOk result (pending stack.new.items ≡ more ++ pending stack.old.items) }
{
    parts(stack, depth, list)?;
    maybe_template(stack, depth, constructor)?;
    maybe_term(stack, depth, parent)
}

fn jump<'a>(
    stack: &mut Vec<PendingLine<'a>>,
    depth: usize,
    jump: &'a Jump,
) -> Result<(), OutOfMemory>
    ensures { let more = map (at_depth depth) (spec.jump_operands jump.now) in
        OnOk result (pending stack.new.items ≡ more ++ pending stack.old.items) }
{
    match jump {
        Jump::Break(_) => Ok(()),
        Jump::Continue(_) => Ok(()),
        Jump::Return(value) => maybe_term(stack, depth, value),
    }
}

fn control_operands<'a>(
    stack: &mut Vec<PendingLine<'a>>,
    depth: usize,
    of: &'a Term,
) -> Result<(), OutOfMemory>
    ensures { let more = map (at_depth depth) (spec.control_operands (out-Term of.now)) in
        OnOk result (pending stack.new.items ≡ more ++ pending stack.old.items) }
{
    match of {
        Term::If {
            test,
            consequent,
            alternate,
        } => choice(stack, depth, test, consequent, alternate),
        Term::Func(template) => push(stack, depth, Node::OneTemplate(template.get())),
        Term::Define { object, parts } => define(stack, depth, object, parts.as_slice()),
        Term::Class {
            parent,
            constructor,
            parts,
            ..
        } => class(stack, depth, parent, constructor, parts.as_slice()),
        Term::Seq(list) => terms(stack, depth, list.as_slice()),
        Term::Scope { body, .. } => term(stack, depth, body),
        Term::Loop {
            test,
            update,
            body,
            ..
        } => looped(stack, depth, test, update, body),
        Term::Label { body, .. } => term(stack, depth, body),
        Term::Jump(to) => jump(stack, depth, to),
        Term::Throw(value) => term(stack, depth, value),
        Term::Try {
            body,
            handler,
            finalizer,
        } => tried(stack, depth, body, handler, finalizer),
        _ => Ok(()),
    }
}

fn call_operands<'a>(
    stack: &mut Vec<PendingLine<'a>>,
    depth: usize,
    of: &'a Term,
) -> Result<(), OutOfMemory>
    ensures { let more = map (at_depth depth) (spec.call_operands (out-Term of.now)) in
        OnOk result (pending stack.new.items ≡ more ++ pending stack.old.items) }
{
    match of {
        Term::Call { callee, arguments } => call(stack, depth, callee, arguments),
        Term::CallOn {
            object,
            key,
            arguments,
        } => call_on(stack, depth, object, key, arguments),
        Term::CallSuper { key, arguments } => call(stack, depth, key, arguments),
        Term::New { callee, arguments } => call(stack, depth, callee, arguments),
        Term::SuperNew { arguments: list } => arguments(stack, depth, list),
        Term::Unary { operand, .. } => term(stack, depth, operand),
        Term::Binary { left, right, .. } => two(stack, depth, left, right),
        Term::Short { left, right, .. } => two(stack, depth, left, right),
        Term::Native { operands, .. } => terms(stack, depth, operands.as_slice()),
        _ => control_operands(stack, depth, of),
    }
}

fn term_operands<'a>(
    stack: &mut Vec<PendingLine<'a>>,
    depth: usize,
    of: &'a Term,
) -> Result<(), OutOfMemory>
    ensures { let more = map (at_depth depth) (spec.operands_of_term (out-Term of.now)) in
        OnOk result (pending stack.new.items ≡ more ++ pending stack.old.items) }
{
    match of {
        Term::SetLocal { value, .. } => term(stack, depth, value),
        Term::SetGlobal { value, .. } => term(stack, depth, value),
        Term::Init { value, .. } => term(stack, depth, value),
        Term::Get { object, key } => two(stack, depth, object, key),
        Term::Put { object, key, value } => three(stack, depth, object, key, value),
        Term::Delete { object, key } => two(stack, depth, object, key),
        Term::SuperGet { key } => term(stack, depth, key),
        _ => call_operands(stack, depth, of),
    }
}

fn function_part<'a>(
    stack: &mut Vec<PendingLine<'a>>,
    depth: usize,
    key: &'a Boxed<Term>,
    template: &'a Boxed<Template>,
) -> Result<(), OutOfMemory>
    ensures { let more = map (at_depth depth) (spec.OneTerm key.now ∷
        spec.OneTemplate template.now ∷ []) in
        OnOk result (pending stack.new.items ≡ more ++ pending stack.old.items) }
{
    push(stack, depth, Node::OneTemplate(template.get()))?;
    term(stack, depth, key)
}

fn part_operands<'a>(
    stack: &mut Vec<PendingLine<'a>>,
    depth: usize,
    of: &'a Part,
) -> Result<(), OutOfMemory>
    ensures { let more = map (at_depth depth) (spec.operands_of_part (out-Part of.now)) in
        OnOk result (pending stack.new.items ≡ more ++ pending stack.old.items) }
{
    match of {
        Part::Data { key, value } => two(stack, depth, key, value),
        Part::Method { key, template, .. } => function_part(stack, depth, key, template),
        Part::Getter { key, template, .. } => function_part(stack, depth, key, template),
        Part::Setter { key, template, .. } => function_part(stack, depth, key, template),
        Part::Spread(value) => term(stack, depth, value),
        Part::Item(value) => term(stack, depth, value),
        Part::Hole => Ok(()),
    }
}

/// Puts the operands of a node before all others.
pub fn operands<'a>(
    stack: &mut Vec<PendingLine<'a>>,
    depth: usize,
    node: Node<'a>,
) -> Result<(), OutOfMemory>
    ensures { let more = map (at_depth depth) (spec.operands_of (spec.node_of node.entry)) in
        OnOk result (pending stack.new.items ≡ more ++ pending stack.old.items) }
{
    match node {
        Node::OneTerm(of) => term_operands(stack, depth, of),
        Node::OnePart(of) => part_operands(stack, depth, of),
        Node::OneTemplate(of) => term(stack, depth, &of.body),
        Node::SpreadArray(of) => push(stack, depth, Node::OneTerm(of)),
        Node::Absent => Ok(()),
    }
}
