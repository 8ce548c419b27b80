// Chains of members and calls with `?.`.

ghost use Rattle.std.specs.Prelude.{◌≡◌, ◌+◌, ◌-◌, ◌++◌, ◌∷◌, [], map, length, true, false, IfOk, OnOk, Some, None, codes};
ghost use Rattle.std.specs.Option.{option_map};
ghost use Rattle.js_names.specs.Lists.{flat};
ghost use Rattle.js_term.specs.declared.term.Term.TheVariants as term;
ghost use Rattle.js_term.specs.declared.term.Part.TheVariants as part;
ghost use Rattle.js_term.specs.declared.term.TemplateKind.TheVariants as template;
ghost use Rattle.js_term_stack.specs.Stacks.{extended, extended_parts, function_part, on_one, on_list, taken, taken_pending};
ghost use Rattle.js_term_stack.specs.declared.piece.Piece.TheVariants as piece;
ghost use Rattle.js_term_stack.specs.declared.pending.Pending.TheVariants as pending;
ghost use Rattle.js_lower_table.specs.Values as values;
ghost use Rattle.js_lower_table.specs.Entries.{given, origin};
ghost use Rattle.js_lower_table.specs.Entries as entries;
ghost use Rattle.js_lower_table.specs.Nests.{Nests};
ghost use Rattle.js_lower_table.specs.Table.{low};
ghost use Rattle.js_lower_table.specs.Expressions as spec;

use crate::below::lower_expr;
use crate::calls::{member_operands, two};
use crate::parts::{argument_array, arguments};
use js_frames::frame::Frame;
use js_frames::scopes::Scopes;
use js_lower_table::bindings::bare;
use js_lower_table::held::Held;
use js_lower_table::lowerer::Lowerer;
use js_lower_table::task::Task;
use js_lower_table::values::{is_null, slot};
use js_term::term::Term;
use js_term_stack::pending::Pending;
use js_term_stack::piece::Piece;
use js_term_stack::stack::Stack;
use js_text::native::Native;
use js_text::text::Text;
use js_tree::tree::{Argument, Expr, Link, LinkStep};
use lava_base::memory::OutOfMemory;
use sqlite_items::Boxed;

fn settle(terms: &mut Stack, chain: Pending) -> Result<(), OutOfMemory>
    ensures { OnOk result (terms.new ≡ piece.OneTerm (spec.settled chain) ∷ terms.old) }
{
    match chain {
        Pending::Settled(value) => terms.push(Piece::OneTerm(value)),
        Pending::Reference { object, key } => terms.add(Term::Get { object, key }),
        Pending::SuperReference(key) => terms.add(Term::SuperGet { key }),
    }
}

fn end_deleted(terms: &mut Stack, chain: Pending) -> Result<(), OutOfMemory>
    ensures { OnOk result (terms.new ≡ piece.OneTerm (spec.ended true chain) ∷ terms.old) }
{
    match chain {
        Pending::Settled(value) => terms.push(Piece::OneTerm(value)),
        Pending::Reference { object, key } => terms.add(Term::Delete { object, key }),
        Pending::SuperReference(key) => terms.add(Term::SuperGet { key }),
    }
}

fn end(terms: &mut Stack, deleted: bool) -> Result<(), OutOfMemory>
    ensures { OnOk result (terms.new ≡ taken_pending
        (λ c r. piece.OneTerm (spec.ended deleted c) ∷ r) terms.old) }
{
    let chain = terms.take_pending()?;
    if deleted {
        return end_deleted(terms, chain);
    }
    settle(terms, chain)
}

fn cut_short(terms: &mut Stack, deleted: bool) -> Result<(), OutOfMemory>
    ensures { OnOk result (terms.new ≡ piece.OneTerm (spec.cut_short deleted) ∷ terms.old) }
{
    if deleted {
        return terms.truth(true);
    }
    terms.undefined()
}

fn keeps_object(chain: &Pending, is_call: bool) -> bool
    ensures { result ≡ spec.keeps_object chain.now is_call }
{
    match chain {
        Pending::Settled(_) => false,
        Pending::Reference { .. } => is_call,
        Pending::SuperReference(_) => is_call,
    }
}

pub fn is_call(step: &LinkStep) -> bool
    ensures { result ≡ spec.is_call step.now }
{
    match step {
        LinkStep::MemberLink(_) => false,
        LinkStep::IndexLink(_) => false,
        LinkStep::CallLink(_) => true,
    }
}

fn has_optional(mut list: &[Link]) -> bool
    ensures { result ≡ spec.has_optional list.entry.now }
{
    while let [first, rest @ ..] = list {
        if first.optional {
            return true;
        }
        list = rest;
    }
    false
}

fn unless_null(terms: &mut Stack, slot: u32, deleted: bool) -> Result<(), OutOfMemory>
    ensures { OnOk result (terms.new ≡ on_one (λ t. term.If (values.is_null (values.here slot))
        (spec.cut_short deleted) (Some t)) terms.old) }
{
    let rest = terms.take_term()?;
    is_null(terms, slot)?;
    cut_short(terms, deleted)?;
    terms.push(Piece::OneTerm(rest))?;
    terms.some()?;
    terms.choice()
}

fn optional_value(
    terms: &mut Stack,
    deleted: bool,
    chain: Pending,
    rest: Boxed<Term>,
) -> Result<(), OutOfMemory>
    ensures { OnOk result (terms.new ≡ piece.OneTerm (spec.optional_value deleted chain rest) ∷ terms.old) }
{
    settle(terms, chain)?;
    terms.init_here(0)?;
    terms.push(Piece::OneTerm(rest))?;
    unless_null(terms, 0, deleted)?;
    terms.list_two()?;
    terms.scope(1)
}

fn kept_reference(
    terms: &mut Stack,
    object: Boxed<Term>,
    key: Boxed<Term>,
) -> Result<(), OutOfMemory>
    ensures { OnOk result (terms.new ≡ piece.OneTerm (values.init_here 1 (term.Get (values.here 0) key)) ∷
        piece.OneTerm (values.init_here 0 object) ∷ terms.old) }
{
    terms.push(Piece::OneTerm(object))?;
    terms.init_here(0)?;
    terms.here(0)?;
    terms.push(Piece::OneTerm(key))?;
    terms.get()?;
    terms.init_here(1)
}

fn kept_super(terms: &mut Stack, key: Boxed<Term>) -> Result<(), OutOfMemory>
    ensures { OnOk result (terms.new ≡ piece.OneTerm (values.init_here 1 (term.SuperGet key)) ∷
        piece.OneTerm (values.init_here 0 term.This) ∷ terms.old) }
{
    terms.this()?;
    terms.init_here(0)?;
    terms.push(Piece::OneTerm(key))?;
    terms.super_get()?;
    terms.init_here(1)
}

fn kept(terms: &mut Stack, chain: Pending) -> Result<(), OutOfMemory>
    ensures { OnOk result (terms.new ≡ piece.OneTerm (values.init_here 1 (spec.kept_value chain)) ∷
        piece.OneTerm (values.init_here 0 (spec.kept_object chain)) ∷ terms.old) }
{
    match chain {
        Pending::Settled(_) => Err(OutOfMemory),
        Pending::Reference { object, key } => kept_reference(terms, object, key),
        Pending::SuperReference(key) => kept_super(terms, key),
    }
}

fn optional_call(
    terms: &mut Stack,
    deleted: bool,
    chain: Pending,
    rest: Boxed<Term>,
) -> Result<(), OutOfMemory>
    ensures { OnOk result (terms.new ≡ piece.OneTerm (spec.optional_call deleted chain rest) ∷ terms.old) }
{
    kept(terms, chain)?;
    terms.push(Piece::OneTerm(rest))?;
    unless_null(terms, 1, deleted)?;
    terms.list_three()?;
    terms.scope(2)
}

fn optional(terms: &mut Stack, deleted: bool, is_call: bool) -> Result<(), OutOfMemory>
    ensures { OnOk result (terms.new ≡ taken (λ t. taken_pending (λ c r. piece.OneTerm
        (spec.optional deleted (spec.keeps_object c is_call) c t) ∷ r)) terms.old) }
{
    let rest = terms.take_term()?;
    let chain = terms.take_pending()?;
    if keeps_object(&chain, is_call) {
        return optional_call(terms, deleted, chain, rest);
    }
    optional_value(terms, deleted, chain, rest)
}

fn member_base<F: Fn(usize, &mut Scopes, &mut Stack, Task<'_>) -> Result<(), OutOfMemory>>(
    lowerer: &Lowerer<F>,
    scopes: &mut Scopes,
    terms: &mut Stack,
    object: &Expr,
    name: &Text,
) -> Result<(), OutOfMemory>
    requires { Nests lowerer.now.depth (F.pre lowerer.now.low) (F.post lowerer.now.low) }
    ensures ok { let b = low lowerer.now.depth in
        OnOk result (terms.new ≡ (let left = spec.expr b scopes.old object.now in
        piece.OnePending (pending.Reference left (values.text name.now)) ∷ terms.old)) }
    ensures kept { OnOk result (scopes.new ≡ scopes.old) }
{
    member_operands(lowerer, scopes, terms, object, name)?;
    terms.reference()
}

fn index_base<F: Fn(usize, &mut Scopes, &mut Stack, Task<'_>) -> Result<(), OutOfMemory>>(
    lowerer: &Lowerer<F>,
    scopes: &mut Scopes,
    terms: &mut Stack,
    object: &Expr,
    key: &Expr,
) -> Result<(), OutOfMemory>
    requires { Nests lowerer.now.depth (F.pre lowerer.now.low) (F.post lowerer.now.low) }
    ensures ok { let b = low lowerer.now.depth in
        OnOk result (terms.new ≡ (let left = spec.expr b scopes.old object.now in
        let right = spec.expr b scopes.old key.now in
        piece.OnePending (pending.Reference left right) ∷ terms.old)) }
    ensures kept { OnOk result (scopes.new ≡ scopes.old) }
{
    two(lowerer, scopes, terms, object, key)?;
    terms.reference()
}

fn base<F: Fn(usize, &mut Scopes, &mut Stack, Task<'_>) -> Result<(), OutOfMemory>>(
    lowerer: &Lowerer<F>,
    scopes: &mut Scopes,
    terms: &mut Stack,
    tree: &Expr,
) -> Result<(), OutOfMemory>
    requires { Nests lowerer.now.depth (F.pre lowerer.now.low) (F.post lowerer.now.low) }
    ensures ok { let b = low lowerer.now.depth in
        let made = spec.base b scopes.old tree.now in
        OnOk result (terms.new ≡ piece.OnePending made ∷ terms.old) }
    ensures kept { OnOk result (scopes.new ≡ scopes.old) }
{
    match bare(tree) {
        Expr::Member { object, name, .. } => {
            member_base(lowerer, scopes, terms, object.get(), &name.name)
        }
        Expr::Index { object, key, .. } => index_base(
            lowerer,
            scopes,
            terms,
            object.get(),
            key.get(),
        ),
        Expr::SuperMember { name, .. } => {
            terms.text_of(&name.name)?;
            terms.super_reference()
        }
        Expr::SuperIndex { key, .. } => {
            lower_expr(lowerer, scopes, terms, key.get())?;
            terms.super_reference()
        }
        _ => {
            lower_expr(lowerer, scopes, terms, tree)?;
            terms.settled()
        }
    }
}

fn value_call<F: Fn(usize, &mut Scopes, &mut Stack, Task<'_>) -> Result<(), OutOfMemory>>(
    lowerer: &Lowerer<F>,
    scopes: &mut Scopes,
    terms: &mut Stack,
    callee: Boxed<Term>,
    list: &[Argument],
) -> Result<(), OutOfMemory>
    requires { Nests lowerer.now.depth (F.pre lowerer.now.low) (F.post lowerer.now.low) }
    ensures ok { let b = low lowerer.now.depth in
        OnOk result (terms.new ≡ piece.OnePending (pending.Settled
        (term.Call callee (spec.arguments b scopes.old list.now))) ∷ terms.old) }
    ensures kept { OnOk result (scopes.new ≡ scopes.old) }
{
    terms.push(Piece::OneTerm(callee))?;
    arguments(lowerer, scopes, terms, list)?;
    terms.call()?;
    terms.settled()
}

fn reference_call<F: Fn(usize, &mut Scopes, &mut Stack, Task<'_>) -> Result<(), OutOfMemory>>(
    lowerer: &Lowerer<F>,
    scopes: &mut Scopes,
    terms: &mut Stack,
    object: Boxed<Term>,
    key: Boxed<Term>,
    list: &[Argument],
) -> Result<(), OutOfMemory>
    requires { Nests lowerer.now.depth (F.pre lowerer.now.low) (F.post lowerer.now.low) }
    ensures ok { let b = low lowerer.now.depth in
        OnOk result (terms.new ≡ piece.OnePending (pending.Settled
        (term.CallOn object key (spec.arguments b scopes.old list.now))) ∷ terms.old) }
    ensures kept { OnOk result (scopes.new ≡ scopes.old) }
{
    terms.push(Piece::OneTerm(object))?;
    terms.push(Piece::OneTerm(key))?;
    arguments(lowerer, scopes, terms, list)?;
    terms.call_on()?;
    terms.settled()
}

fn super_call<F: Fn(usize, &mut Scopes, &mut Stack, Task<'_>) -> Result<(), OutOfMemory>>(
    lowerer: &Lowerer<F>,
    scopes: &mut Scopes,
    terms: &mut Stack,
    key: Boxed<Term>,
    list: &[Argument],
) -> Result<(), OutOfMemory>
    requires { Nests lowerer.now.depth (F.pre lowerer.now.low) (F.post lowerer.now.low) }
    ensures ok { let b = low lowerer.now.depth in
        OnOk result (terms.new ≡ piece.OnePending (pending.Settled
        (term.CallSuper key (spec.arguments b scopes.old list.now))) ∷ terms.old) }
    ensures kept { OnOk result (scopes.new ≡ scopes.old) }
{
    terms.push(Piece::OneTerm(key))?;
    arguments(lowerer, scopes, terms, list)?;
    terms.call_super()?;
    terms.settled()
}

fn link_call<F: Fn(usize, &mut Scopes, &mut Stack, Task<'_>) -> Result<(), OutOfMemory>>(
    lowerer: &Lowerer<F>,
    scopes: &mut Scopes,
    terms: &mut Stack,
    list: &[Argument],
) -> Result<(), OutOfMemory>
    requires { Nests lowerer.now.depth (F.pre lowerer.now.low) (F.post lowerer.now.low) }
    ensures ok { let b = low lowerer.now.depth in
        OnOk result (terms.new ≡ taken_pending
        (λ c r. piece.OnePending (pending.Settled
        (spec.link_call b scopes.old c list.now)) ∷ r) terms.old) }
    ensures kept { OnOk result (scopes.new ≡ scopes.old) }
{
    match terms.take_pending()? {
        Pending::Settled(value) => value_call(lowerer, scopes, terms, value, list),
        Pending::Reference { object, key } => {
            reference_call(lowerer, scopes, terms, object, key, list)
        }
        Pending::SuperReference(key) => super_call(lowerer, scopes, terms, key, list),
    }
}

fn member_link(terms: &mut Stack, name: &Text) -> Result<(), OutOfMemory>
    ensures { OnOk result (terms.new ≡ taken_pending
        (λ c r. piece.OnePending (pending.Reference (spec.settled c) (values.text name.now)) ∷ r) terms.old) }
{
    let chain = terms.take_pending()?;
    settle(terms, chain)?;
    terms.text_of(name)?;
    terms.reference()
}

fn index_link<F: Fn(usize, &mut Scopes, &mut Stack, Task<'_>) -> Result<(), OutOfMemory>>(
    lowerer: &Lowerer<F>,
    scopes: &mut Scopes,
    terms: &mut Stack,
    key: &Expr,
) -> Result<(), OutOfMemory>
    requires { Nests lowerer.now.depth (F.pre lowerer.now.low) (F.post lowerer.now.low) }
    ensures ok { let b = low lowerer.now.depth in
        OnOk result (terms.new ≡ taken_pending
        (λ c r. piece.OnePending (pending.Reference (spec.settled c)
        (spec.expr b scopes.old key.now)) ∷ r) terms.old) }
    ensures kept { OnOk result (scopes.new ≡ scopes.old) }
{
    let chain = terms.take_pending()?;
    settle(terms, chain)?;
    lower_expr(lowerer, scopes, terms, key)?;
    terms.reference()
}

fn link<F: Fn(usize, &mut Scopes, &mut Stack, Task<'_>) -> Result<(), OutOfMemory>>(
    lowerer: &Lowerer<F>,
    scopes: &mut Scopes,
    terms: &mut Stack,
    step: &LinkStep,
) -> Result<(), OutOfMemory>
    requires { Nests lowerer.now.depth (F.pre lowerer.now.low) (F.post lowerer.now.low) }
    ensures ok { let b = low lowerer.now.depth in
        OnOk result (terms.new ≡ taken_pending
        (λ c r. piece.OnePending (spec.link b scopes.old c step.now) ∷ r) terms.old) }
    ensures kept { OnOk result (scopes.new ≡ scopes.old) }
{
    match step {
        LinkStep::MemberLink(name) => member_link(terms, &name.name),
        LinkStep::IndexLink(key) => index_link(lowerer, scopes, terms, key.get()),
        LinkStep::CallLink(list) => link_call(lowerer, scopes, terms, list.as_slice()),
    }
}

fn apply_kept<F: Fn(usize, &mut Scopes, &mut Stack, Task<'_>) -> Result<(), OutOfMemory>>(
    lowerer: &Lowerer<F>,
    scopes: &mut Scopes,
    terms: &mut Stack,
    level: usize,
    list: &[Argument],
) -> Result<(), OutOfMemory>
    requires { Nests lowerer.now.depth (F.pre lowerer.now.low) (F.post lowerer.now.low) }
    ensures ok { let b = low lowerer.now.depth in
        let made = spec.apply_kept b scopes.old level list.now in
        OnOk result (terms.new ≡ piece.OneTerm made ∷ terms.old) }
    ensures kept { OnOk result (scopes.new ≡ scopes.old) }
{
    slot(scopes, terms, Held { level, slot: 1 })?;
    slot(scopes, terms, Held { level, slot: 0 })?;
    argument_array(lowerer, scopes, terms, list)?;
    terms.list_three()?;
    terms.native(Native::Apply)
}

fn call_first<F: Fn(usize, &mut Scopes, &mut Stack, Task<'_>) -> Result<(), OutOfMemory>>(
    lowerer: &Lowerer<F>,
    scopes: &mut Scopes,
    terms: &mut Stack,
    level: usize,
    list: &[Argument],
) -> Result<(), OutOfMemory>
    requires { Nests lowerer.now.depth (F.pre lowerer.now.low) (F.post lowerer.now.low) }
    ensures ok { let b = low lowerer.now.depth in
        let made = term.Call
        (values.slot scopes.old (record { level = level; slot = 0 }))
        (spec.arguments b scopes.old list.now) in
        OnOk result (terms.new ≡ piece.OneTerm made ∷ terms.old) }
    ensures kept { OnOk result (scopes.new ≡ scopes.old) }
{
    slot(scopes, terms, Held { level, slot: 0 })?;
    arguments(lowerer, scopes, terms, list)?;
    terms.call()
}

fn call_kept<F: Fn(usize, &mut Scopes, &mut Stack, Task<'_>) -> Result<(), OutOfMemory>>(
    lowerer: &Lowerer<F>,
    scopes: &mut Scopes,
    terms: &mut Stack,
    level: usize,
    keeps: bool,
    list: &[Argument],
) -> Result<(), OutOfMemory>
    requires { Nests lowerer.now.depth (F.pre lowerer.now.low) (F.post lowerer.now.low) }
    ensures ok { let b = low lowerer.now.depth in
        let made = spec.call_kept b scopes.old level keeps list.now in
        OnOk result (terms.new ≡ piece.OneTerm made ∷ terms.old) }
    ensures kept { OnOk result (scopes.new ≡ scopes.old) }
{
    if keeps {
        return apply_kept(lowerer, scopes, terms, level, list);
    }
    call_first(lowerer, scopes, terms, level, list)
}

fn first_link<F: Fn(usize, &mut Scopes, &mut Stack, Task<'_>) -> Result<(), OutOfMemory>>(
    lowerer: &Lowerer<F>,
    scopes: &mut Scopes,
    terms: &mut Stack,
    level: usize,
    keeps: bool,
    step: &LinkStep,
) -> Result<(), OutOfMemory>
    requires { Nests lowerer.now.depth (F.pre lowerer.now.low) (F.post lowerer.now.low) }
    ensures ok { let b = low lowerer.now.depth in
        let made = spec.first_link b scopes.old level keeps step.now in
        OnOk result (terms.new ≡ piece.OnePending made ∷ terms.old) }
    ensures kept { OnOk result (scopes.new ≡ scopes.old) }
{
    match step {
        LinkStep::MemberLink(name) => {
            slot(scopes, terms, Held { level, slot: 0 })?;
            terms.text_of(&name.name)?;
            terms.reference()
        }
        LinkStep::IndexLink(key) => {
            slot(scopes, terms, Held { level, slot: 0 })?;
            lower_expr(lowerer, scopes, terms, key.get())?;
            terms.reference()
        }
        LinkStep::CallLink(list) => {
            call_kept(lowerer, scopes, terms, level, keeps, list.as_slice())?;
            terms.settled()
        }
    }
}

#[cycle(links)]
fn links<F: Fn(usize, &mut Scopes, &mut Stack, Task<'_>) -> Result<(), OutOfMemory>>(
    lowerer: &Lowerer<F>,
    scopes: &mut Scopes,
    terms: &mut Stack,
    list: &[Link],
    deleted: bool,
) -> Result<(), OutOfMemory>
    requires { Nests lowerer.now.depth (F.pre lowerer.now.low) (F.post lowerer.now.low) }
    ensures ok { let b = low lowerer.now.depth in
        OnOk result (terms.new ≡ taken_pending
        (λ c r. piece.OneTerm (spec.links b list.now scopes.old deleted c) ∷ r) terms.old) }
    ensures kept { OnOk result (scopes.new ≡ scopes.old) }
{
    match list {
        [] => end(terms, deleted),
        [first, rest @ ..] => {
            if first.optional {
                return optional_link(lowerer, scopes, terms, &first.step, rest, deleted);
            }
            let chain = terms.take_pending()?;
            terms.push(Piece::OnePending(chain))?;
            link(lowerer, scopes, terms, &first.step)?;
            links(lowerer, scopes, terms, rest, deleted)
        }
    }
}

#[cycle(links)]
fn optional_link<F: Fn(usize, &mut Scopes, &mut Stack, Task<'_>) -> Result<(), OutOfMemory>>(
    lowerer: &Lowerer<F>,
    scopes: &mut Scopes,
    terms: &mut Stack,
    step: &LinkStep,
    list: &[Link],
    deleted: bool,
) -> Result<(), OutOfMemory>
    requires { Nests lowerer.now.depth (F.pre lowerer.now.low) (F.post lowerer.now.low) }
    ensures ok { let b = low lowerer.now.depth in
        OnOk result (terms.new ≡ taken_pending (λ c r. piece.OneTerm (
        let keeps = spec.keeps_object c (spec.is_call step.now) in
        let inner = spec.behind list.now scopes.old in
        let first = spec.first_link b inner (length scopes.old - 1) keeps step.now in
        spec.optional deleted keeps c (spec.links b list.now inner deleted first)) ∷ r) terms.old) }
    ensures kept { OnOk result (scopes.new ≡ scopes.old) }
{
    let level = scopes.len().saturating_sub(1);
    let is_call = is_call(step);
    let chain = terms.take_pending()?;
    let keeps = keeps_object(&chain, is_call);
    terms.push(Piece::OnePending(chain))?;
    rest_behind(lowerer, scopes, terms, step, list, deleted, level, keeps)?;
    optional(terms, deleted, is_call)
}

#[cycle(links)]
fn rest_behind<F: Fn(usize, &mut Scopes, &mut Stack, Task<'_>) -> Result<(), OutOfMemory>>(
    lowerer: &Lowerer<F>,
    scopes: &mut Scopes,
    terms: &mut Stack,
    step: &LinkStep,
    list: &[Link],
    deleted: bool,
    level: usize,
    keeps: bool,
) -> Result<(), OutOfMemory>
    requires { Nests lowerer.now.depth (F.pre lowerer.now.low) (F.post lowerer.now.low) }
    ensures ok { let b = low lowerer.now.depth in
        OnOk result (terms.new ≡ (let inner = spec.behind list.now scopes.old in
        let first = spec.first_link b inner level keeps step.now in
        piece.OneTerm (spec.links b list.now inner deleted first) ∷ terms.old)) }
    ensures kept { OnOk result (scopes.new ≡ scopes.old) }
{
    if !has_optional(list) {
        return links_from(lowerer, scopes, terms, step, list, deleted, level, keeps);
    }
    scopes.open(Frame::new(terms.alloc()))?;
    links_from(lowerer, scopes, terms, step, list, deleted, level, keeps)?;
    scopes.close();
    Ok(())
}

#[cycle(links)]
fn links_from<F: Fn(usize, &mut Scopes, &mut Stack, Task<'_>) -> Result<(), OutOfMemory>>(
    lowerer: &Lowerer<F>,
    scopes: &mut Scopes,
    terms: &mut Stack,
    step: &LinkStep,
    list: &[Link],
    deleted: bool,
    level: usize,
    keeps: bool,
) -> Result<(), OutOfMemory>
    requires { Nests lowerer.now.depth (F.pre lowerer.now.low) (F.post lowerer.now.low) }
    ensures ok { let b = low lowerer.now.depth in
        OnOk result (terms.new ≡ (let first = spec.first_link b scopes.old level keeps step.now in
        piece.OneTerm (spec.links b list.now scopes.old deleted first) ∷ terms.old)) }
    ensures kept { OnOk result (scopes.new ≡ scopes.old) }
{
    first_link(lowerer, scopes, terms, level, keeps, step)?;
    links(lowerer, scopes, terms, list, deleted)
}

/// A chain, which `delete` may stand before (ECMA-262, OptionalExpression).
pub fn chain<F: Fn(usize, &mut Scopes, &mut Stack, Task<'_>) -> Result<(), OutOfMemory>>(
    lowerer: &Lowerer<F>,
    scopes: &mut Scopes,
    terms: &mut Stack,
    deleted: bool,
    tree: &Expr,
    list: &[Link],
) -> Result<(), OutOfMemory>
    requires { Nests lowerer.now.depth (F.pre lowerer.now.low) (F.post lowerer.now.low) }
    ensures ok { let b = low lowerer.now.depth in
        let made = spec.chain b scopes.old deleted tree.now list.now in
        OnOk result (terms.new ≡ piece.OneTerm made ∷ terms.old) }
    ensures kept { OnOk result (scopes.new ≡ scopes.old) }
{
    scopes.open(Frame::new(terms.alloc()))?;
    base(lowerer, scopes, terms, tree)?;
    links(lowerer, scopes, terms, list, deleted)?;
    scopes.close();
    Ok(())
}
