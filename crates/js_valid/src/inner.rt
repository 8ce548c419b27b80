// What stands inside an item, put before all other steps.

ghost use Rattle.std.specs.Prelude.{◌≡◌, ◌++◌, ◌∷◌, [], map, OnOk};
ghost use Rattle.js_term.specs.declared.term.Part.{out-Part};
ghost use Rattle.js_term.specs.declared.term.Term.{out-Term};
ghost use Rattle.js_valid.specs.Inner as spec;
ghost use Rattle.js_valid.specs.Surroundings.{InHandler, InLabel, InLoop, InScope, round_of};
ghost use Rattle.js_valid.specs.Work.{item_of, pending, visits};

use crate::surrounding::Surrounding;
use crate::work::{PendingItem, TermItem, plain, within};
use js_term::term::{Arguments, Jump, Part, Template, Term};
use js_text::text::Text;
use lava_base::memory::OutOfMemory;
use sqlite_items::Boxed;

fn term<'a>(work: &mut Vec<PendingItem<'a>>, term: &'a Boxed<Term>) -> Result<(), OutOfMemory>
    ensures { let more = spec.term term.now ∷ [] in
        OnOk result (pending work.new.items ≡ visits more ++ pending work.old.items) }
{
    plain(work, TermItem::OneTerm(term.get()))
}

fn maybe_term<'a>(
    work: &mut Vec<PendingItem<'a>>,
    term: &'a Option<Boxed<Term>>,
) -> Result<(), OutOfMemory>
    ensures { let more = spec.maybe_term term.now in
        OnOk result (pending work.new.items ≡ visits more ++ pending work.old.items) }
{
    match term {
        None => Ok(()),
        Some(term) => plain(work, TermItem::OneTerm(term.get())),
    }
}

fn maybe_template<'a>(
    work: &mut Vec<PendingItem<'a>>,
    template: &'a Option<Boxed<Template>>,
) -> Result<(), OutOfMemory>
    ensures { let more = spec.maybe_template template.now in
        OnOk result (pending work.new.items ≡ visits more ++ pending work.old.items) }
{
    match template {
        None => Ok(()),
        Some(template) => plain(work, TermItem::OneTemplate(template.get())),
    }
}

fn term_within<'a>(
    work: &mut Vec<PendingItem<'a>>,
    round: Surrounding<'a>,
    term: &'a Boxed<Term>,
) -> Result<(), OutOfMemory>
    ensures { let more = spec.term_within (round_of round.entry) term.now ∷ [] in
        OnOk result (pending work.new.items ≡ visits more ++ pending work.old.items) }
{
    within(work, round, TermItem::OneTerm(term.get()))
}

fn maybe_within<'a>(
    work: &mut Vec<PendingItem<'a>>,
    round: Surrounding<'a>,
    term: &'a Option<Boxed<Term>>,
) -> Result<(), OutOfMemory>
    ensures { let more = spec.maybe_within (round_of round.entry) term.now in
        OnOk result (pending work.new.items ≡ visits more ++ pending work.old.items) }
{
    match term {
        None => Ok(()),
        Some(term) => within(work, round, TermItem::OneTerm(term.get())),
    }
}

#[tactic(auto, using(crate::proofs::Pending_laws::before_of))]
fn terms<'a>(work: &mut Vec<PendingItem<'a>>, list: &'a [Boxed<Term>]) -> Result<(), OutOfMemory>
    ensures { let more = map spec.term list.now in
        OnOk result (pending work.new.items ≡ visits more ++ pending work.old.items) }
{
    let mut at = list.len();
    while 0 < at {
        at -= 1;
        term(work, &list[at])?;
    }
    Ok(())
}

#[tactic(auto, using(crate::proofs::Pending_laws::before_of))]
fn parts<'a>(work: &mut Vec<PendingItem<'a>>, list: &'a [Part]) -> Result<(), OutOfMemory>
    ensures { let more = map spec.part list.now in
        OnOk result (pending work.new.items ≡ visits more ++ pending work.old.items) }
{
    let mut at = list.len();
    while 0 < at {
        at -= 1;
        plain(work, TermItem::OnePart(&list[at]))?;
    }
    Ok(())
}

fn arguments<'a>(work: &mut Vec<PendingItem<'a>>, list: &'a Arguments) -> Result<(), OutOfMemory>
    ensures { let more = spec.arguments list.now in
        OnOk result (pending work.new.items ≡ visits more ++ pending work.old.items) }
{
    match list {
        Arguments::Listed(items) => terms(work, items.as_slice()),
        Arguments::Of(array) => plain(work, TermItem::OneTerm(array.get())),
    }
}

fn two<'a>(
    work: &mut Vec<PendingItem<'a>>,
    a: &'a Boxed<Term>,
    b: &'a Boxed<Term>,
) -> Result<(), OutOfMemory>
    ensures { let more = spec.term a.now ∷ spec.term b.now ∷ [] in
        OnOk result (pending work.new.items ≡ visits more ++ pending work.old.items) }
{
    term(work, b)?;
    term(work, a)
}

fn three<'a>(
    work: &mut Vec<PendingItem<'a>>,
    a: &'a Boxed<Term>,
    b: &'a Boxed<Term>,
    c: &'a Boxed<Term>,
) -> Result<(), OutOfMemory>
    ensures { let more = spec.term a.now ∷ spec.term b.now ∷ spec.term c.now ∷ [] in
        OnOk result (pending work.new.items ≡ visits more ++ pending work.old.items) }
{
    term(work, c)?;
    two(work, a, b)
}

fn call<'a>(
    work: &mut Vec<PendingItem<'a>>,
    callee: &'a Boxed<Term>,
    list: &'a Arguments,
) -> Result<(), OutOfMemory>
    ensures { let more = spec.term callee.now ∷ spec.arguments list.now in
        OnOk result (pending work.new.items ≡ visits more ++ pending work.old.items) }
{
    arguments(work, list)?;
    term(work, callee)
}

fn call_on<'a>(
    work: &mut Vec<PendingItem<'a>>,
    object: &'a Boxed<Term>,
    key: &'a Boxed<Term>,
    list: &'a Arguments,
) -> Result<(), OutOfMemory>
    ensures { let more = spec.term object.now ∷ spec.term key.now ∷ spec.arguments list.now in
        OnOk result (pending work.new.items ≡ visits more ++ pending work.old.items) }
{
    arguments(work, list)?;
    two(work, object, key)
}

fn choice<'a>(
    work: &mut Vec<PendingItem<'a>>,
    test: &'a Boxed<Term>,
    consequent: &'a Boxed<Term>,
    alternate: &'a Option<Boxed<Term>>,
) -> Result<(), OutOfMemory>
    ensures { let more = spec.term test.now ∷ spec.term consequent.now ∷ spec.maybe_term alternate.now in
        OnOk result (pending work.new.items ≡ visits more ++ pending work.old.items) }
{
    maybe_term(work, alternate)?;
    two(work, test, consequent)
}

fn looped<'a>(
    work: &mut Vec<PendingItem<'a>>,
    labels: &'a [Text],
    test: &'a Boxed<Term>,
    update: &'a Option<Boxed<Term>>,
    body: &'a Boxed<Term>,
) -> Result<(), OutOfMemory>
    ensures { let more = spec.term_within (InLoop labels.now) test.now ∷
        (spec.maybe_within (InLoop labels.now) update.now ++
        spec.term_within (InLoop labels.now) body.now ∷ []) in
        OnOk result (pending work.new.items ≡ visits more ++ pending work.old.items) }
{
    term_within(work, Surrounding::Loop(labels), body)?;
    maybe_within(work, Surrounding::Loop(labels), update)?;
    term_within(work, Surrounding::Loop(labels), test)
}

fn tried<'a>(
    work: &mut Vec<PendingItem<'a>>,
    body: &'a Boxed<Term>,
    handler: &'a Option<Boxed<Term>>,
    finalizer: &'a Option<Boxed<Term>>,
) -> Result<(), OutOfMemory>
    ensures { let more = spec.term body.now ∷ (spec.maybe_within InHandler handler.now ++
        spec.maybe_term finalizer.now) in
        OnOk result (pending work.new.items ≡ visits more ++ pending work.old.items) }
{
    maybe_term(work, finalizer)?;
    maybe_within(work, Surrounding::Handler, handler)?;
    term(work, body)
}

fn define<'a>(
    work: &mut Vec<PendingItem<'a>>,
    object: &'a Boxed<Term>,
    list: &'a [Part],
) -> Result<(), OutOfMemory>
    ensures { let more = spec.term object.now ∷ map spec.part list.now in
        OnOk result (pending work.new.items ≡ visits more ++ pending work.old.items) }
{
    parts(work, list)?;
    term(work, object)
}

fn class<'a>(
    work: &mut Vec<PendingItem<'a>>,
    parent: &'a Option<Boxed<Term>>,
    constructor: &'a Option<Boxed<Template>>,
    list: &'a [Part],
) -> Result<(), OutOfMemory>
    ensures { let more = spec.maybe_term parent.now ++ (spec.maybe_template constructor.now ++
        map spec.part list.now) in
        OnOk result (pending work.new.items ≡ visits more ++ pending work.old.items) }
{
    parts(work, list)?;
    maybe_template(work, constructor)?;
    maybe_term(work, parent)
}

fn jump<'a>(work: &mut Vec<PendingItem<'a>>, jump: &'a Jump) -> Result<(), OutOfMemory>
    ensures { let more = spec.jump jump.now in
        OnOk result (pending work.new.items ≡ visits more ++ pending work.old.items) }
{
    match jump {
        Jump::Break(_) => Ok(()),
        Jump::Continue(_) => Ok(()),
        Jump::Return(value) => maybe_term(work, value),
    }
}

fn inside_control<'a>(work: &mut Vec<PendingItem<'a>>, of: &'a Term) -> Result<(), OutOfMemory>
    ensures { let more = spec.inside_control (out-Term of.now) in
        OnOk result (pending work.new.items ≡ visits more ++ pending work.old.items) }
{
    match of {
        Term::If {
            test,
            consequent,
            alternate,
        } => choice(work, test, consequent, alternate),
        Term::Func(template) => plain(work, TermItem::OneTemplate(template.get())),
        Term::Define { object, parts } => define(work, object, parts.as_slice()),
        Term::Class {
            parent,
            constructor,
            parts,
            ..
        } => class(work, parent, constructor, parts.as_slice()),
        Term::Seq(list) => terms(work, list.as_slice()),
        Term::Scope { slots, body } => term_within(work, Surrounding::Scope(*slots), body),
        Term::Loop {
            labels,
            test,
            update,
            body,
            ..
        } => looped(work, labels.as_slice(), test, update, body),
        Term::Label { label, body } => term_within(work, Surrounding::Label(label), body),
        Term::Jump(to) => jump(work, to),
        Term::Throw(value) => term(work, value),
        Term::Try {
            body,
            handler,
            finalizer,
        } => tried(work, body, handler, finalizer),
        _ => Ok(()),
    }
}

fn inside_call<'a>(work: &mut Vec<PendingItem<'a>>, of: &'a Term) -> Result<(), OutOfMemory>
    ensures { let more = spec.inside_call (out-Term of.now) in
        OnOk result (pending work.new.items ≡ visits more ++ pending work.old.items) }
{
    match of {
        Term::Call { callee, arguments } => call(work, callee, arguments),
        Term::CallOn {
            object,
            key,
            arguments,
        } => call_on(work, object, key, arguments),
        Term::CallSuper { key, arguments } => call(work, key, arguments),
        Term::New { callee, arguments } => call(work, callee, arguments),
        Term::SuperNew { arguments: list } => arguments(work, list),
        Term::Unary { operand, .. } => term(work, operand),
        Term::Binary { left, right, .. } => two(work, left, right),
        Term::Short { left, right, .. } => two(work, left, right),
        Term::Native { operands, .. } => terms(work, operands.as_slice()),
        _ => inside_control(work, of),
    }
}

fn inside_term<'a>(work: &mut Vec<PendingItem<'a>>, of: &'a Term) -> Result<(), OutOfMemory>
    ensures { let more = spec.inside_term (out-Term of.now) in
        OnOk result (pending work.new.items ≡ visits more ++ pending work.old.items) }
{
    match of {
        Term::SetLocal { value, .. } => term(work, value),
        Term::SetGlobal { value, .. } => term(work, value),
        Term::Init { value, .. } => term(work, value),
        Term::Get { object, key } => two(work, object, key),
        Term::Put { object, key, value } => three(work, object, key, value),
        Term::Delete { object, key } => two(work, object, key),
        Term::SuperGet { key } => term(work, key),
        _ => inside_call(work, of),
    }
}

fn function_part<'a>(
    work: &mut Vec<PendingItem<'a>>,
    key: &'a Boxed<Term>,
    template: &'a Boxed<Template>,
) -> Result<(), OutOfMemory>
    ensures { let more = spec.term key.now ∷ spec.template template.now ∷ [] in
        OnOk result (pending work.new.items ≡ visits more ++ pending work.old.items) }
{
    plain(work, TermItem::OneTemplate(template.get()))?;
    term(work, key)
}

fn inside_part<'a>(work: &mut Vec<PendingItem<'a>>, of: &'a Part) -> Result<(), OutOfMemory>
    ensures { let more = spec.inside_part (out-Part of.now) in
        OnOk result (pending work.new.items ≡ visits more ++ pending work.old.items) }
{
    match of {
        Part::Data { key, value } => two(work, key, value),
        Part::Method { key, template, .. } => function_part(work, key, template),
        Part::Getter { key, template, .. } => function_part(work, key, template),
        Part::Setter { key, template, .. } => function_part(work, key, template),
        Part::Spread(value) => term(work, value),
        Part::Item(value) => term(work, value),
        Part::Hole => Ok(()),
    }
}

fn inside_template<'a>(work: &mut Vec<PendingItem<'a>>, of: &'a Template) -> Result<(), OutOfMemory>
    ensures { let more = spec.inside (spec.OneTemplate of.now) in
        OnOk result (pending work.new.items ≡ visits more ++ pending work.old.items) }
{
    let (kind, slots) = (of.kind, of.slots);
    term_within(work, Surrounding::Body { kind, slots }, &of.body)
}

/// Puts what stands inside an item before all other steps.
pub fn inside<'a>(work: &mut Vec<PendingItem<'a>>, item: TermItem<'a>) -> Result<(), OutOfMemory>
    ensures { let more = spec.inside (item_of item.entry) in
        OnOk result (pending work.new.items ≡ visits more ++ pending work.old.items) }
{
    match item {
        TermItem::OneTerm(of) => inside_term(work, of),
        TermItem::OnePart(of) => inside_part(work, of),
        TermItem::OneTemplate(of) => inside_template(work, of),
    }
}
