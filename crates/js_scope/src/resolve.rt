// A source without early errors, with what its names go to.

ghost use Rattle.std.specs.Prelude.{◌≡◌, ◌++◌, [], OnOk, IfOk, IfErr};
ghost use Rattle.js_early.specs.Walks.{early_error, IsRefusal};
ghost use Rattle.js_scope.specs.Resolutions as spec;
ghost use Rattle.js_walk.specs.Parts.{part_of, parts_of};

use crate::finding::Finding;
use crate::scoping::names_of;
use crate::uses::part_findings;
use js_early::early::check_early;
use js_fault::fault::SyntaxFault;
use js_names::declared::DeclaredName;
use js_names::last::close;
use js_names::scope::{NameScope, scope_of};
use js_tree::tree::Module;
use js_walk::below::parts_below;
use js_walk::subtree::Subtree;
use lava_base::memory::OutOfMemory;
use sqlite_items::Items;
use std::alloc::Global;

/// How many parts are looked at, one below the other. A tree of 256 levels has fewer.
pub const SCOPE_DEPTH: usize = 1028;

/// A source without early errors, and what its names go to, in the order of the text.
#[derive(Drop)]
pub struct Resolved {
    pub source: Module,
    pub findings: Items<Finding>,
}

impl Resolved {
    /// Lets a source go, which costs a crate two minutes of proof.
    pub fn discard(self) {}
}

#[cycle(walk)]
fn walk_to(
    alloc: Global,
    depth: usize,
    scopes: &mut Items<NameScope>,
    part: &Subtree<'_>,
    out: &mut Items<Finding>,
) -> Result<(), OutOfMemory>
    ensures appended { OnOk result (out.new
        ≡ out.old ++ spec.findings_to depth scopes.old (part_of part.now)) }
    ensures scopes_kept { OnOk result (scopes.new ≡ scopes.old) }
{
    if depth == 0 {
        return Ok(());
    }
    walk_row(alloc, depth - 1, scopes, part, out)
}

#[cycle(walk)]
fn walk_row(
    alloc: Global,
    depth: usize,
    scopes: &mut Items<NameScope>,
    part: &Subtree<'_>,
    out: &mut Items<Finding>,
) -> Result<(), OutOfMemory>
    ensures appended { let findings = spec.findings_row (spec.findings_to depth) scopes.old in
        OnOk result (out.new ≡ out.old ++ findings (part_of part.now)) }
    ensures scopes_kept { OnOk result (scopes.new ≡ scopes.old) }
{
    part_findings(alloc, scopes.as_slice(), part, out)?;
    let names = names_of(alloc, part)?;
    let parts = parts_below(alloc, part)?;
    walk_scope(
        alloc,
        depth,
        scopes,
        names.as_slice(),
        parts.as_slice(),
        out,
    )
}

#[tactic(auto, using(js_names::proofs::Lasts::but_last_push))]
#[cycle(walk)]
fn walk_scope(
    alloc: Global,
    depth: usize,
    scopes: &mut Items<NameScope>,
    names: &[DeclaredName],
    list: &[Subtree<'_>],
    out: &mut Items<Finding>,
) -> Result<(), OutOfMemory>
    ensures appended { let findings = spec.all_findings (spec.findings_to depth) in
        OnOk result (out.new
        ≡ out.old ++ findings (spec.with_scope scopes.old names.now) (parts_of list.now)) }
    ensures scopes_kept { OnOk result (scopes.new ≡ scopes.old) }
{
    if names.is_empty() {
        return walk_all(alloc, depth, scopes, list, out);
    }
    let scope = scope_of(alloc, names)?;
    scopes.push(scope)?;
    walk_all(alloc, depth, scopes, list, out)?;
    close(scopes);
    Ok(())
}

#[cycle(walk)]
fn walk_all(
    alloc: Global,
    depth: usize,
    scopes: &mut Items<NameScope>,
    mut list: &[Subtree<'_>],
    out: &mut Items<Finding>,
) -> Result<(), OutOfMemory>
    ensures appended { let findings = spec.all_findings (spec.findings_to depth) scopes.old in
        OnOk result (out.new ≡ out.old ++ findings (parts_of list.entry.now)) }
    ensures scopes_kept { OnOk result (scopes.new ≡ scopes.old) }
{
    while let [first, rest @ ..] = list {
        walk_to(alloc, depth, scopes, first, out)?;
        list = rest;
    }
    Ok(())
}

#[tactic(auto, unfolding(crate::specs::Resolutions::findings_from))]
fn findings_to(alloc: Global, depth: usize, source: &Module) -> Result<Items<Finding>, OutOfMemory>
    ensures { IfOk result (λ findings. findings ≡ spec.findings_from depth source.now) }
{
    let mut scopes = Items::new(alloc);
    let mut findings = Items::new(alloc);
    let part = Subtree::Module(source);
    walk_to(alloc, depth, &mut scopes, &part, &mut findings)?;
    Ok(findings)
}

#[tactic(auto, unfolding(crate::specs::Resolutions::findings_of))]
fn findings_of(alloc: Global, source: &Module) -> Result<Items<Finding>, OutOfMemory>
    ensures { IfOk result (λ findings. findings ≡ spec.findings_of source.now) }
{
    findings_to(alloc, SCOPE_DEPTH, source)
}

/// Resolves the names of a source. It is refused exactly with its early error, if it has one, and for want of memory.
pub fn resolve(alloc: Global, source: Module) -> Result<Resolved, SyntaxFault>
    ensures ok { OnOk result (early_error source ≡ None) }
    ensures early { IfErr result (IsRefusal (early_error source)) }
    ensures resolved { IfOk result (λ resolved. resolved ≡ spec.resolved source) }
{
    if let Err(fault) = check_early(alloc, &source) {
        return Err(fault);
    }
    let findings = findings_of(alloc, &source)?;
    Ok(Resolved { source, findings })
}
