// The names that patterns and declarations bind.

ghost use Rattle.std.specs.Prelude.{◌≡◌, ◌++◌, OnOk};
ghost use Rattle.js_names.specs.Names as spec;
ghost use Rattle.js_names.specs.Lists.{flat, from_option};

use crate::declared::{DeclaredName, declare};
use js_tree::tree::{
    Declaration, DeclarationKind, ForInit, Function, Pattern, PatternElement, PatternField,
};
use lava_base::memory::OutOfMemory;
use sqlite_items::{Boxed, Items};

/// How many levels of a tree are looked at. A tree of a source has at most 256.
pub const TREE_DEPTH: usize = 257;

#[cycle(bound)]
fn bound_names_to(
    depth: usize,
    constant: bool,
    pattern: &Pattern,
    out: &mut Items<DeclaredName>,
) -> Result<(), OutOfMemory>
    ensures { OnOk result (out.new ≡ out.old ++ spec.bound_names_to depth constant pattern.now) }
{
    if depth == 0 {
        return Ok(());
    }
    pattern_names_row(depth - 1, constant, pattern, out)
}

#[cycle(bound)]
fn pattern_names_row(
    depth: usize,
    constant: bool,
    pattern: &Pattern,
    out: &mut Items<DeclaredName>,
) -> Result<(), OutOfMemory>
    ensures { let names = spec.bound_names_to depth in
        OnOk result (out.new ≡ out.old ++ spec.pattern_names_row names constant pattern.now) }
{
    match pattern {
        Pattern::Bound(identifier) => declare(constant, identifier, out),
        Pattern::Target(_) => Ok(()),
        Pattern::ObjectPattern { fields, rest, .. } => {
            fields_names(depth, constant, fields.as_slice(), out)?;
            rest_names(depth, constant, rest, out)
        }
        Pattern::ArrayPattern { elements, rest, .. } => {
            maybe_elements_names(depth, constant, elements.as_slice(), out)?;
            rest_names(depth, constant, rest, out)
        }
    }
}

#[cycle(bound)]
fn rest_names(
    depth: usize,
    constant: bool,
    rest: &Option<Boxed<Pattern>>,
    out: &mut Items<DeclaredName>,
) -> Result<(), OutOfMemory>
    ensures { let names = spec.bound_names_to depth in
        OnOk result (out.new ≡ out.old ++ from_option (names constant) rest.now) }
{
    match rest {
        None => Ok(()),
        Some(pattern) => bound_names_to(depth, constant, pattern.get(), out),
    }
}

#[cycle(bound)]
fn fields_names(
    depth: usize,
    constant: bool,
    mut list: &[PatternField],
    out: &mut Items<DeclaredName>,
) -> Result<(), OutOfMemory>
    ensures { let names = spec.bound_names_to depth in
        OnOk result (out.new ≡ out.old ++ flat (spec.field_names names constant) list.entry.now) }
{
    while let [first, rest @ ..] = list {
        bound_names_to(depth, constant, first.element.pattern.get(), out)?;
        list = rest;
    }
    Ok(())
}

#[cycle(bound)]
fn maybe_element_names(
    depth: usize,
    constant: bool,
    slot: &Option<PatternElement>,
    out: &mut Items<DeclaredName>,
) -> Result<(), OutOfMemory>
    ensures { let names = spec.bound_names_to depth in
        OnOk result (out.new ≡ out.old ++ spec.maybe_element_names names constant slot.now) }
{
    match slot {
        None => Ok(()),
        Some(element) => bound_names_to(depth, constant, element.pattern.get(), out),
    }
}

#[cycle(bound)]
fn maybe_elements_names(
    depth: usize,
    constant: bool,
    mut list: &[Option<PatternElement>],
    out: &mut Items<DeclaredName>,
) -> Result<(), OutOfMemory>
    ensures { let names = spec.bound_names_to depth in
        OnOk result (out.new
        ≡ out.old ++ flat (spec.maybe_element_names names constant) list.entry.now) }
{
    while let [first, rest @ ..] = list {
        maybe_element_names(depth, constant, first, out)?;
        list = rest;
    }
    Ok(())
}

/// Appends the names that a pattern binds (ECMA-262, BoundNames).
#[tactic(auto, unfolding(crate::specs::Names::bound_names))]
pub fn bound_names(
    constant: bool,
    pattern: &Pattern,
    out: &mut Items<DeclaredName>,
) -> Result<(), OutOfMemory>
    ensures { OnOk result (out.new ≡ out.old ++ spec.bound_names constant pattern.now) }
{
    bound_names_to(TREE_DEPTH, constant, pattern, out)
}

/// Appends the names that a pattern binds, if there is one.
pub fn maybe_bound_names(
    constant: bool,
    pattern: &Option<Boxed<Pattern>>,
    out: &mut Items<DeclaredName>,
) -> Result<(), OutOfMemory>
    ensures { OnOk result (out.new
        ≡ out.old ++ from_option (spec.bound_names constant) pattern.now) }
{
    match pattern {
        None => Ok(()),
        Some(pattern) => bound_names(constant, pattern.get(), out),
    }
}

/// Appends the names of declarators or of parameters (ECMA-262, BoundNames).
pub fn elements_names(
    constant: bool,
    mut list: &[PatternElement],
    out: &mut Items<DeclaredName>,
) -> Result<(), OutOfMemory>
    ensures { OnOk result (out.new ≡ out.old ++ spec.elements_names constant list.entry.now) }
{
    while let [first, rest @ ..] = list {
        bound_names(constant, first.pattern.get(), out)?;
        list = rest;
    }
    Ok(())
}

/// Appends the names of a function's parameters (ECMA-262, BoundNames).
pub fn parameter_names(
    function: &Function,
    out: &mut Items<DeclaredName>,
) -> Result<(), OutOfMemory>
    ensures { OnOk result (out.new ≡ out.old ++ spec.parameter_names function.now) }
{
    elements_names(false, function.parameters.as_slice(), out)?;
    maybe_bound_names(false, &function.rest, out)
}

fn is_var(kind: DeclarationKind) -> bool
    ensures { result ≡ spec.is_var kind }
{
    match kind {
        DeclarationKind::Var => true,
        DeclarationKind::Let => false,
        DeclarationKind::Const => false,
    }
}

/// Whether a declaration is one by `const`.
pub fn is_const(kind: DeclarationKind) -> bool
    ensures { result ≡ spec.is_const kind }
{
    match kind {
        DeclarationKind::Var => false,
        DeclarationKind::Let => false,
        DeclarationKind::Const => true,
    }
}

fn declaration_names(
    declaration: &Declaration,
    out: &mut Items<DeclaredName>,
) -> Result<(), OutOfMemory>
    ensures { OnOk result (out.new ≡ out.old ++ spec.declaration_names declaration.now) }
{
    let constant = is_const(declaration.kind);
    elements_names(constant, declaration.declarators.as_slice(), out)
}

/// Appends what a declaration declares by `var`.
pub fn declaration_vars(
    declaration: &Declaration,
    out: &mut Items<DeclaredName>,
) -> Result<(), OutOfMemory>
    ensures { OnOk result (out.new ≡ out.old ++ spec.declaration_vars declaration.now) }
{
    if is_var(declaration.kind) {
        return declaration_names(declaration, out);
    }
    Ok(())
}

/// Appends what a declaration declares by `let` or `const`.
pub fn declaration_lexicals(
    declaration: &Declaration,
    out: &mut Items<DeclaredName>,
) -> Result<(), OutOfMemory>
    ensures { OnOk result (out.new ≡ out.old ++ spec.declaration_lexicals declaration.now) }
{
    if is_var(declaration.kind) {
        return Ok(());
    }
    declaration_names(declaration, out)
}

fn binding_names(
    kind: DeclarationKind,
    pattern: &Pattern,
    out: &mut Items<DeclaredName>,
) -> Result<(), OutOfMemory>
    ensures { OnOk result (out.new ≡ out.old ++ spec.binding_names kind pattern.now) }
{
    bound_names(is_const(kind), pattern, out)
}

/// Appends what the head of a for-in or for-of statement declares by `var`.
pub fn binding_vars(
    kind: DeclarationKind,
    pattern: &Pattern,
    out: &mut Items<DeclaredName>,
) -> Result<(), OutOfMemory>
    ensures { OnOk result (out.new ≡ out.old ++ spec.binding_vars kind pattern.now) }
{
    if is_var(kind) {
        return binding_names(kind, pattern, out);
    }
    Ok(())
}

/// Appends what the head of a for-in or for-of statement declares by `let` or `const`.
pub fn binding_lexicals(
    kind: DeclarationKind,
    pattern: &Pattern,
    out: &mut Items<DeclaredName>,
) -> Result<(), OutOfMemory>
    ensures { OnOk result (out.new ≡ out.old ++ spec.binding_lexicals kind pattern.now) }
{
    if is_var(kind) {
        return Ok(());
    }
    binding_names(kind, pattern, out)
}

/// Appends what the head of a `for` declares by `var`.
pub fn init_vars(init: &ForInit, out: &mut Items<DeclaredName>) -> Result<(), OutOfMemory>
    ensures { OnOk result (out.new ≡ out.old ++ spec.init_vars init.now) }
{
    match init {
        ForInit::NoInit => Ok(()),
        ForInit::InitDeclaration(declaration) => declaration_vars(declaration, out),
        ForInit::InitExpression(_) => Ok(()),
    }
}

/// Appends what the head of a `for` declares by `let` or `const`.
pub fn init_lexicals(init: &ForInit, out: &mut Items<DeclaredName>) -> Result<(), OutOfMemory>
    ensures { OnOk result (out.new ≡ out.old ++ spec.init_lexicals init.now) }
{
    match init {
        ForInit::NoInit => Ok(()),
        ForInit::InitDeclaration(declaration) => declaration_lexicals(declaration, out),
        ForInit::InitExpression(_) => Ok(()),
    }
}
