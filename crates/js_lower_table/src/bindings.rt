// The terms of names, made on a stack.

ghost use Rattle.std.specs.Prelude.{◌≡◌, ◌∷◌, [], IfOk, OnOk, Some, None};
ghost use Rattle.js_lower_table.specs.Values as spec;
ghost use Rattle.js_term.specs.declared.term.Term.TheVariants as term;
ghost use Rattle.js_term_stack.specs.Stacks as stack;
ghost use Rattle.js_term_stack.specs.declared.piece.Piece.TheVariants as piece;
ghost use Rattle.js_lower_table.specs.Entries.{given};
ghost use Rattle.js_lower_table.specs.Entries as entries;

use crate::values::number_key;
use crate::words::{count, decimal, is_word, word};
use js_frames::frame::{Frame, Referent, SlotName};
use js_frames::scopes::{FoundReferent, Scopes};
use js_names::bound::TREE_DEPTH;
use js_term::term::TemplateKind;
use js_term_stack::stack::Stack;
use js_text::native::Native;
use js_text::text::Text;
use js_tree::tree::{Expr, FunctionKind, Pattern, PropertyKey};
use lava_base::memory::OutOfMemory;
use std::alloc::Global;

fn is_outside(alloc: Global, name: &Text) -> Result<bool, OutOfMemory>
    ensures { IfOk result (λ outside. outside ≡ spec.is_outside name.now) }
{
    if is_word(alloc, name, b"NaN")? {
        return Ok(true);
    }
    is_word(alloc, name, b"Infinity")
}

fn free(terms: &mut Stack, name: &Text, soft: bool) -> Result<(), OutOfMemory>
    ensures { OnOk result (terms.new ≡ piece.OneTerm (spec.free name.now soft) ∷ terms.old) }
{
    let alloc = terms.alloc();
    if is_word(alloc, name, b"undefined")? {
        return terms.undefined();
    }
    if is_outside(alloc, name)? {
        return terms.outside();
    }
    terms.global(name, soft)
}

fn local(terms: &mut Stack, found: FoundReferent) -> Result<(), OutOfMemory>
    ensures { let made = term.Local found.hops found.slot in
        OnOk result (terms.new ≡ piece.OneTerm made ∷ terms.old) }
{
    let hops = count(found.hops)?;
    let slot = count(found.slot)?;
    terms.local(hops, slot)
}

fn read_found(terms: &mut Stack, found: FoundReferent) -> Result<(), OutOfMemory>
    ensures { let made = spec.read_referent found.hops found.slot found.referent in
        OnOk result (terms.new ≡ piece.OneTerm made ∷ terms.old) }
{
    match found.referent {
        Referent::Variable => local(terms, found),
        Referent::Constant => local(terms, found),
        Referent::CommonObject(id) => terms.common(id),
        Referent::Operation(_) => terms.undefined(),
        Referent::IteratorSymbol => terms.iterator_symbol(),
    }
}

/// A name that is read; a soft one is undefined where it is not there.
pub fn read(scopes: &Scopes, terms: &mut Stack, name: &Text, soft: bool) -> Result<(), OutOfMemory>
    ensures { let made = spec.read scopes.now name.now soft in
        OnOk result (terms.new ≡ piece.OneTerm made ∷ terms.old) }
{
    match scopes.find(name) {
        None => free(terms, name, soft),
        Some(found) => read_found(terms, found),
    }
}

fn set_local(terms: &mut Stack, found: FoundReferent, constant: bool) -> Result<(), OutOfMemory>
    ensures { OnOk result (terms.new ≡ stack.on_one
        (λ t. term.SetLocal found.hops found.slot constant t) terms.old) }
{
    let hops = count(found.hops)?;
    let slot = count(found.slot)?;
    terms.set_local(hops, slot, constant)
}

fn write_found(terms: &mut Stack, name: &Text, found: FoundReferent) -> Result<(), OutOfMemory>
    ensures { OnOk result (terms.new ≡ stack.on_one
        (λ t. spec.write_referent name.now found.hops found.slot t found.referent) terms.old) }
{
    match found.referent {
        Referent::Variable => set_local(terms, found, false),
        Referent::Constant => set_local(terms, found, true),
        _ => terms.set_global(name),
    }
}

/// A name that is assigned the last term.
pub fn write(scopes: &Scopes, terms: &mut Stack, name: &Text) -> Result<(), OutOfMemory>
    ensures { OnOk result (terms.new ≡ stack.on_one
        (λ t. spec.write scopes.now name.now t) terms.old) }
{
    match scopes.find(name) {
        None => terms.set_global(name),
        Some(found) => write_found(terms, name, found),
    }
}

fn init_found(terms: &mut Stack, found: FoundReferent) -> Result<(), OutOfMemory>
    ensures { OnOk result (terms.new ≡ stack.on_one
        (λ t. term.Init found.hops found.slot t) terms.old) }
{
    let hops = count(found.hops)?;
    let slot = count(found.slot)?;
    terms.init(hops, slot)
}

fn no_init(terms: &mut Stack) -> Result<(), OutOfMemory>
    ensures { OnOk result (terms.new ≡ stack.on_one (λ t. spec.undefined) terms.old) }
{
    let _value = terms.take_term()?;
    terms.undefined()
}

/// A name that is initialised with the last term.
pub fn init(scopes: &Scopes, terms: &mut Stack, name: &Text) -> Result<(), OutOfMemory>
    ensures { OnOk result (terms.new ≡ stack.on_one
        (λ t. spec.init scopes.now name.now t) terms.old) }
{
    match scopes.find(name) {
        None => no_init(terms),
        Some(found) => init_found(terms, found),
    }
}

/// A name that is bound to the last term.
pub fn set(
    scopes: &Scopes,
    terms: &mut Stack,
    assigned: bool,
    name: &Text,
) -> Result<(), OutOfMemory>
    ensures { OnOk result (terms.new ≡ stack.on_one
        (λ t. spec.set scopes.now assigned name.now t) terms.old) }
{
    if assigned {
        write(scopes, terms, name)
    } else {
        init(scopes, terms, name)
    }
}

/// The native that a name of the prelude is.
pub fn operation_in(scopes: &Scopes, name: &Text) -> Option<Native>
    ensures { result ≡ spec.operation_in scopes.now name.now }
{
    match scopes.find(name) {
        None => None,
        Some(found) => match found.referent {
            Referent::Operation(native) => Some(native),
            _ => None,
        },
    }
}

fn bare_to(depth: usize, tree: &Expr) -> &Expr
    ensures { result.now ≡ entries.bare_to depth tree.now }
{
    if depth == 0 {
        return tree;
    }
    match tree {
        Expr::Parenthesized { inner, .. } => bare_to(depth - 1, inner.get()),
        _ => tree,
    }
}

/// An expression without the parentheses round it.
#[tactic(auto, unfolding(crate::specs::Entries::bare))]
pub fn bare(tree: &Expr) -> &Expr
    ensures { result.now ≡ entries.bare tree.now }
{
    bare_to(TREE_DEPTH, tree)
}

/// The name that an expression is, if it is one.
pub fn name_of(tree: &Expr) -> Option<&Text>
    ensures { given result ≡ entries.name_of tree.now }
{
    match tree {
        Expr::Name(identifier) => Some(&identifier.name),
        _ => None,
    }
}

/// The name that a pattern is, if it is one.
pub fn bound_name(pattern: &Pattern) -> Option<&Text>
    ensures { given result ≡ entries.bound_name pattern.now }
{
    match pattern {
        Pattern::Bound(identifier) => Some(&identifier.name),
        _ => None,
    }
}

fn number_name(alloc: Global, number: Option<i64>) -> Result<Text, OutOfMemory>
    ensures { IfOk result (λ name. name ≡ entries.number_name number) }
{
    match number {
        None => word(alloc, b""),
        Some(n) => decimal(alloc, n),
    }
}

/// The name that a function or class gets from a key.
pub fn key_name(alloc: Global, key: &PropertyKey) -> Result<Text, OutOfMemory>
    ensures { IfOk result (λ name. name ≡ entries.key_name key.now) }
{
    match key {
        PropertyKey::Named(identifier) => identifier.name.copy(),
        PropertyKey::Numbered { value, .. } => number_name(alloc, *value),
        PropertyKey::Computed { .. } => word(alloc, b""),
    }
}

/// The term of a key that is not computed.
pub fn plain_key(terms: &mut Stack, key: &PropertyKey) -> Result<(), OutOfMemory>
    ensures { OnOk result (terms.new ≡ piece.OneTerm (entries.plain_key key.now) ∷ terms.old) }
{
    match key {
        PropertyKey::Named(identifier) => terms.text_of(&identifier.name),
        PropertyKey::Numbered { value, .. } => number_key(terms, *value),
        PropertyKey::Computed { .. } => terms.undefined(),
    }
}

pub fn template_kind(kind: FunctionKind) -> TemplateKind
    ensures { result ≡ entries.template_kind kind }
{
    match kind {
        FunctionKind::Plain => TemplateKind::Plain,
        FunctionKind::Arrow => TemplateKind::Arrow,
        FunctionKind::Method => TemplateKind::Method,
        FunctionKind::Getter => TemplateKind::Method,
        FunctionKind::Setter => TemplateKind::Method,
    }
}

/// The scope of the name that a function or class expression has inside it.
pub fn own_name(alloc: Global, name: &Text) -> Result<Frame, OutOfMemory>
    ensures { IfOk result (λ frame. frame ≡ entries.own_name name.now) }
{
    let mut frame = Frame::new(alloc);
    let slot = SlotName {
        name: name.copy()?,
        referent: Referent::Constant,
    };
    frame.push(slot)?;
    Ok(frame)
}
