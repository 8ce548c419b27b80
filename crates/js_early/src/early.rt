// The early error of a source.

ghost use Rattle.std.specs.Prelude.{◌≡◌, ◌++◌, [], OnOk, IfOk, IfErr};
ghost use Rattle.js_early.specs.Contexts as contexts;
ghost use Rattle.js_early.specs.Walks as spec;
ghost use Rattle.js_walk.specs.Parts.{part_of, parts_of};

use crate::context::{EarlyContext, EarlyLabel, context_in, is_loop, source_context};
use crate::fault::{EarlyFault, least, rule_name};
use crate::names::scope_faults;
use crate::rules::part_faults;
use crate::scopes::lexicals;
use js_fault::fault::{SyntaxFault, SyntaxWhat};
use js_names::declared::DeclaredName;
use js_names::last::close;
use js_names::scope::{NameScope, scope_of};
use js_tree::tree::{Module, Stmt};
use js_walk::below::parts_below;
use js_walk::subtree::Subtree;
use lava_base::memory::OutOfMemory;
use lava_base::name::Name;
use sqlite_items::Items;
use std::alloc::Global;

/// How many parts are looked at, one below the other. A tree of 256 levels has fewer.
pub const WALK_DEPTH: usize = 1028;

fn is_body(part: &Subtree<'_>) -> bool
    ensures { result ≡ contexts.is_body (part_of part.now) }
{
    match *part {
        Subtree::Module(_) => true,
        Subtree::Function(_, _) => true,
        _ => false,
    }
}

fn statement_label(statement: &Stmt) -> Result<Option<EarlyLabel>, OutOfMemory>
    ensures { IfOk result (λ label. label ≡ contexts.statement_label statement.now) }
{
    match statement {
        Stmt::Labelled { label, body } => {
            let name = label.name.copy()?;
            let is_loop = is_loop(body.get());
            Ok(Some(EarlyLabel { name, is_loop }))
        }
        _ => Ok(None),
    }
}

fn label_in(part: &Subtree<'_>) -> Result<Option<EarlyLabel>, OutOfMemory>
    ensures { IfOk result (λ label. label ≡ contexts.label_in (part_of part.now)) }
{
    match *part {
        Subtree::Statement(statement) => statement_label(statement),
        _ => Ok(None),
    }
}

#[cycle(walk)]
fn walk_to(
    alloc: Global,
    depth: usize,
    context: EarlyContext,
    labels: &mut Items<EarlyLabel>,
    scopes: &mut Items<NameScope>,
    part: &Subtree<'_>,
    out: &mut Items<EarlyFault>,
) -> Result<(), OutOfMemory>
    ensures appended { let faults = spec.faults_to depth context labels.old scopes.old in
        OnOk result (out.new ≡ out.old ++ faults (part_of part.now)) }
    ensures labels_kept { OnOk result (labels.new ≡ labels.old) }
    ensures scopes_kept { OnOk result (scopes.new ≡ scopes.old) }
{
    if depth == 0 {
        return Ok(());
    }
    walk_row(alloc, depth - 1, context, labels, scopes, part, out)
}

#[cycle(walk)]
fn walk_row(
    alloc: Global,
    depth: usize,
    context: EarlyContext,
    labels: &mut Items<EarlyLabel>,
    scopes: &mut Items<NameScope>,
    part: &Subtree<'_>,
    out: &mut Items<EarlyFault>,
) -> Result<(), OutOfMemory>
    ensures appended { let faults = spec.faults_row (spec.faults_to depth) context in
        OnOk result (out.new ≡ out.old ++ faults labels.old scopes.old (part_of part.now)) }
    ensures labels_kept { OnOk result (labels.new ≡ labels.old) }
    ensures scopes_kept { OnOk result (scopes.new ≡ scopes.old) }
{
    part_faults(
        alloc,
        context,
        labels.as_slice(),
        scopes.as_slice(),
        part,
        out,
    )?;
    let names = lexicals(alloc, part)?;
    scope_faults(alloc, part, names.as_slice(), out)?;
    let inside = context_in(context, part);
    walk_below(
        alloc,
        depth,
        inside,
        labels,
        scopes,
        part,
        names.as_slice(),
        out,
    )
}

/// What stands below a part whose scope declares these names.
#[cycle(walk)]
fn walk_below(
    alloc: Global,
    depth: usize,
    context: EarlyContext,
    labels: &mut Items<EarlyLabel>,
    scopes: &mut Items<NameScope>,
    part: &Subtree<'_>,
    names: &[DeclaredName],
    out: &mut Items<EarlyFault>,
) -> Result<(), OutOfMemory>
    ensures appended { let faults = spec.faults_below (spec.faults_to depth) context labels.old in
        OnOk result (out.new ≡ out.old ++ faults scopes.old (part_of part.now) names.now) }
    ensures labels_kept { OnOk result (labels.new ≡ labels.old) }
    ensures scopes_kept { OnOk result (scopes.new ≡ scopes.old) }
{
    let parts = parts_below(alloc, part)?;
    if is_body(part) {
        return walk_body(alloc, depth, context, names, parts.as_slice(), out);
    }
    let label = label_in(part)?;
    walk_labelled(
        alloc,
        depth,
        context,
        label,
        labels,
        scopes,
        names,
        parts.as_slice(),
        out,
    )
}

/// The body of a source or of a function.
#[cycle(walk)]
fn walk_body(
    alloc: Global,
    depth: usize,
    context: EarlyContext,
    names: &[DeclaredName],
    list: &[Subtree<'_>],
    out: &mut Items<EarlyFault>,
) -> Result<(), OutOfMemory>
    ensures { let faults = spec.all_faults (spec.faults_to depth) context [] in
        let inside = contexts.with_scope [] names.now in
        OnOk result (out.new ≡ out.old ++ faults inside (parts_of list.now)) }
{
    let mut labels = Items::new(alloc);
    let mut scopes = Items::new(alloc);
    walk_scope(
        alloc,
        depth,
        context,
        &mut labels,
        &mut scopes,
        names,
        list,
        out,
    )
}

#[tactic(auto, using(js_names::proofs::Lasts::but_last_push))]
#[cycle(walk)]
fn walk_labelled(
    alloc: Global,
    depth: usize,
    context: EarlyContext,
    label: Option<EarlyLabel>,
    labels: &mut Items<EarlyLabel>,
    scopes: &mut Items<NameScope>,
    names: &[DeclaredName],
    list: &[Subtree<'_>],
    out: &mut Items<EarlyFault>,
) -> Result<(), OutOfMemory>
    ensures appended { let faults = spec.all_faults (spec.faults_to depth) context in
        let inside = contexts.with_scope scopes.old names.now in
        let labelled = contexts.with_label labels.old label in
        OnOk result (out.new ≡ out.old ++ faults labelled inside (parts_of list.now)) }
    ensures labels_kept { OnOk result (labels.new ≡ labels.old) }
    ensures scopes_kept { OnOk result (scopes.new ≡ scopes.old) }
{
    match label {
        None => walk_scope(alloc, depth, context, labels, scopes, names, list, out),
        Some(label) => {
            labels.push(label)?;
            walk_scope(alloc, depth, context, labels, scopes, names, list, out)?;
            close(labels);
            Ok(())
        }
    }
}

#[tactic(auto, using(js_names::proofs::Lasts::but_last_push))]
#[cycle(walk)]
fn walk_scope(
    alloc: Global,
    depth: usize,
    context: EarlyContext,
    labels: &mut Items<EarlyLabel>,
    scopes: &mut Items<NameScope>,
    names: &[DeclaredName],
    list: &[Subtree<'_>],
    out: &mut Items<EarlyFault>,
) -> Result<(), OutOfMemory>
    ensures appended { let faults = spec.all_faults (spec.faults_to depth) context labels.old in
        let inside = contexts.with_scope scopes.old names.now in
        OnOk result (out.new ≡ out.old ++ faults inside (parts_of list.now)) }
    ensures labels_kept { OnOk result (labels.new ≡ labels.old) }
    ensures scopes_kept { OnOk result (scopes.new ≡ scopes.old) }
{
    if names.is_empty() {
        return walk_all(alloc, depth, context, labels, scopes, list, out);
    }
    let scope = scope_of(alloc, names)?;
    scopes.push(scope)?;
    walk_all(alloc, depth, context, labels, scopes, list, out)?;
    close(scopes);
    Ok(())
}

#[cycle(walk)]
fn walk_all(
    alloc: Global,
    depth: usize,
    context: EarlyContext,
    labels: &mut Items<EarlyLabel>,
    scopes: &mut Items<NameScope>,
    mut list: &[Subtree<'_>],
    out: &mut Items<EarlyFault>,
) -> Result<(), OutOfMemory>
    ensures appended { let faults = spec.all_faults (spec.faults_to depth) context labels.old in
        OnOk result (out.new ≡ out.old ++ faults scopes.old (parts_of list.entry.now)) }
    ensures labels_kept { OnOk result (labels.new ≡ labels.old) }
    ensures scopes_kept { OnOk result (scopes.new ≡ scopes.old) }
{
    while let [first, rest @ ..] = list {
        walk_to(alloc, depth, context, labels, scopes, first, out)?;
        list = rest;
    }
    Ok(())
}

#[tactic(auto, unfolding(crate::specs::Walks::early_error_to))]
fn early_error_to(
    alloc: Global,
    depth: usize,
    source: &Module,
) -> Result<Option<EarlyFault>, OutOfMemory>
    ensures { IfOk result (λ fault. fault ≡ spec.early_error_to depth source.now) }
{
    let mut labels = Items::new(alloc);
    let mut scopes = Items::new(alloc);
    let mut faults = Items::new(alloc);
    let context = source_context(source.kind);
    let part = Subtree::Module(source);
    walk_to(
        alloc,
        depth,
        context,
        &mut labels,
        &mut scopes,
        &part,
        &mut faults,
    )?;
    Ok(least(faults.as_slice()))
}

/// The early error of a source, if it has one: at the least place, and at one place the rule that stands first in `EarlyRule` (ECMA-262, "Static Semantics: Early Errors"). It takes time linear in the source, for a bounded number of levels.
#[tactic(auto, unfolding(crate::specs::Walks::early_error))]
pub fn early_error(alloc: Global, source: &Module) -> Result<Option<EarlyFault>, OutOfMemory>
    ensures { IfOk result (λ fault. fault ≡ spec.early_error source.now) }
{
    early_error_to(alloc, WALK_DEPTH, source)
}

/// Refuses a source with its early error, if it has one. It is refused for want of memory too.
pub fn check_early(alloc: Global, source: &Module) -> Result<(), SyntaxFault>
    ensures ok { OnOk result (spec.early_error source.now ≡ None) }
    ensures early { IfErr result (spec.IsRefusal (spec.early_error source.now)) }
{
    match early_error(alloc, source)? {
        None => Ok(()),
        Some(fault) => {
            let name = Name::of(alloc, rule_name(fault.rule))?;
            let place = fault.place;
            let what = SyntaxWhat::Early(name);
            Err(SyntaxFault::At { place, what })
        }
    }
}
