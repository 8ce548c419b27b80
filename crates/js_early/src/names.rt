// Rules of names that stand twice, and of names that are not bound.

ghost use Rattle.std.specs.Prelude.{◌≡◌, ◌++◌, [], OnOk};
ghost use Rattle.js_early.specs.Rules as spec;
ghost use Rattle.js_names.specs.Lists.{flat, from_option};
ghost use Rattle.js_walk.specs.Parts.{part_of};

use crate::fault::{EarlyFault, EarlyRule, put, unless};
use crate::scopes::{taken, top_functions};
use js_names::declared::{DeclaredName, FoundName};
use js_names::scope::{NameScope, scope_of};
use js_text::text::Text;
use js_tree::tree::{Identifier, SourceKind};
use js_walk::places::later;
use js_walk::subtree::Subtree;
use js_walk::words::is_word;
use lava_base::memory::OutOfMemory;
use sqlite_items::Items;
use std::alloc::Global;

/// Appends a fault for each name that stands before it too, in a scope or in the list.
pub(crate) fn repeated(
    rule: EarlyRule,
    mut seen: NameScope,
    mut list: &[DeclaredName],
    out: &mut Items<EarlyFault>,
) -> Result<(), OutOfMemory>
    ensures { OnOk result (out.new ≡ out.old ++ spec.repeated rule seen list.entry.now) }
{
    while let [first, rest @ ..] = list {
        unless(!seen.has(&first.name), rule, first.place, out)?;
        seen.add(first)?;
        list = rest;
    }
    Ok(())
}

fn clash_at(
    name: &DeclaredName,
    found: Option<FoundName>,
    out: &mut Items<EarlyFault>,
) -> Result<(), OutOfMemory>
    ensures { OnOk result (out.new ≡ out.old ++ spec.clash_at name.now found) }
{
    match found {
        None => Ok(()),
        Some(found) => put(EarlyRule::Duplicate, later(found.place, name.place), out),
    }
}

fn clash(
    name: &DeclaredName,
    scope: &NameScope,
    out: &mut Items<EarlyFault>,
) -> Result<(), OutOfMemory>
    ensures { OnOk result (out.new ≡ out.old ++ spec.clash name.now scope.now) }
{
    clash_at(name, scope.find(&name.name), out)
}

fn clashes(
    mut scopes: &[NameScope],
    name: &DeclaredName,
    out: &mut Items<EarlyFault>,
) -> Result<(), OutOfMemory>
    ensures { OnOk result (out.new ≡ out.old ++ spec.clashes scopes.entry.now name.now) }
{
    while let [first, rest @ ..] = scopes {
        clash(name, first, out)?;
        scopes = rest;
    }
    Ok(())
}

/// Appends a fault for each `var` beside a lexical declaration of a scope that it is in.
pub(crate) fn all_clashes(
    scopes: &[NameScope],
    mut list: &[DeclaredName],
    out: &mut Items<EarlyFault>,
) -> Result<(), OutOfMemory>
    ensures { OnOk result (out.new ≡ out.old ++ flat (spec.clashes scopes.now) list.entry.now) }
{
    while let [first, rest @ ..] = list {
        clashes(scopes, first, out)?;
        list = rest;
    }
    Ok(())
}

fn scope_clashes(
    scope: &NameScope,
    mut list: &[DeclaredName],
    out: &mut Items<EarlyFault>,
) -> Result<(), OutOfMemory>
    ensures { OnOk result (out.new ≡ out.old ++ flat (spec.clash_with scope.now) list.entry.now) }
{
    while let [first, rest @ ..] = list {
        clash(first, scope, out)?;
        list = rest;
    }
    Ok(())
}

fn is_source_name(kind: SourceKind, name: &Text) -> bool
    ensures { result ≡ spec.is_source_name kind name.now }
{
    match kind {
        SourceKind::Module => {
            is_word(name, b"exports") || (is_word(name, b"require") || is_word(name, b"module"))
        }
        SourceKind::EvaluatedText => is_word(name, b"require"),
    }
}

fn all_source_names(
    kind: SourceKind,
    mut list: &[DeclaredName],
    out: &mut Items<EarlyFault>,
) -> Result<(), OutOfMemory>
    ensures { OnOk result (out.new ≡ out.old ++ flat (spec.source_name kind) list.entry.now) }
{
    while let [first, rest @ ..] = list {
        let ok = !is_source_name(kind, &first.name);
        unless(ok, EarlyRule::Duplicate, first.place, out)?;
        list = rest;
    }
    Ok(())
}

fn source_names(
    part: &Subtree<'_>,
    list: &[DeclaredName],
    out: &mut Items<EarlyFault>,
) -> Result<(), OutOfMemory>
    ensures { OnOk result (out.new ≡ out.old ++ spec.source_names (part_of part.now) list.now) }
{
    match *part {
        Subtree::Module(source) => all_source_names(source.kind, list, out),
        _ => Ok(()),
    }
}

fn all_repeated(
    alloc: Global,
    part: &Subtree<'_>,
    list: &[DeclaredName],
    out: &mut Items<EarlyFault>,
) -> Result<(), OutOfMemory>
    ensures { OnOk result (out.new ≡ out.old ++ spec.repeated_beside (part_of part.now) list.now) }
{
    let before = taken(alloc, part)?;
    let seen = scope_of(alloc, before.as_slice())?;
    repeated(EarlyRule::Duplicate, seen, list, out)
}

fn function_clashes(
    alloc: Global,
    part: &Subtree<'_>,
    list: &[DeclaredName],
    out: &mut Items<EarlyFault>,
) -> Result<(), OutOfMemory>
    ensures { OnOk result (out.new ≡ out.old ++ spec.function_clashes (part_of part.now) list.now) }
{
    let functions = top_functions(alloc, part)?;
    let scope = scope_of(alloc, list)?;
    scope_clashes(&scope, functions.as_slice(), out)
}

/// Appends what is wrong with the names that the scope of a part declares lexically.
pub(crate) fn scope_faults(
    alloc: Global,
    part: &Subtree<'_>,
    list: &[DeclaredName],
    out: &mut Items<EarlyFault>,
) -> Result<(), OutOfMemory>
    ensures { OnOk result (out.new ≡ out.old ++ spec.scope_faults (part_of part.now) list.now) }
{
    if list.is_empty() {
        return Ok(());
    }
    source_names(part, list, out)?;
    all_repeated(alloc, part, list, out)?;
    function_clashes(alloc, part, list, out)
}

/// Whether a name is not bound: `eval`, `arguments`.
pub(crate) fn is_reserved(name: &Text) -> bool
    ensures { result ≡ spec.is_reserved name.now }
{
    is_word(name, b"eval") || is_word(name, b"arguments")
}

/// Appends a fault where a name is bound that may not be.
pub(crate) fn binding(
    identifier: &Identifier,
    out: &mut Items<EarlyFault>,
) -> Result<(), OutOfMemory>
    ensures { OnOk result (out.new ≡ out.old ++ spec.binding identifier.now) }
{
    unless(
        !is_reserved(&identifier.name),
        EarlyRule::Binding,
        identifier.place,
        out,
    )
}

/// The same of a name that may be left out.
pub(crate) fn maybe_binding(
    identifier: &Option<Identifier>,
    out: &mut Items<EarlyFault>,
) -> Result<(), OutOfMemory>
    ensures { OnOk result (out.new ≡ out.old ++ from_option spec.binding identifier.now) }
{
    match identifier {
        None => Ok(()),
        Some(found) => binding(found, out),
    }
}
