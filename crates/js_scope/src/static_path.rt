// A name and the static members behind it.

ghost use Rattle.std.specs.Prelude.{◌≡◌, [], ◌∷◌, ◌++◌, Some, IfOk, OnOk};
ghost use Rattle.std.specs.Option.{option_map};
ghost use Rattle.js_scope.specs.StaticPaths as spec;

use js_names::bound::TREE_DEPTH;
use js_text::text::Text;
use js_tree::tree::{Expr, Identifier, Link, LinkStep};
use js_walk::paths::are_member_links;
use lava_base::memory::OutOfMemory;
use lava_base::place::Place;
use sqlite_items::Items;
use std::alloc::Global;

/// A name where it stands, and the static members behind it.
#[derive(Drop)]
pub struct StaticPath {
    pub name: Text,
    pub place: Place,
    pub members: Items<Text>,
}

/// A name alone.
pub(crate) fn lone_name(alloc: Global, name: &Identifier) -> Result<StaticPath, OutOfMemory>
    ensures { IfOk result (λ path. path ≡ spec.lone_name name.now) }
{
    Ok(StaticPath {
        name: name.name.copy()?,
        place: name.place,
        members: Items::new(alloc),
    })
}

fn some_name(alloc: Global, name: &Identifier) -> Result<Option<StaticPath>, OutOfMemory>
    ensures { IfOk result (λ path. path ≡ Some (spec.lone_name name.now)) }
{
    let path = lone_name(alloc, name)?;
    Ok(Some(path))
}

/// Appends a copy of a text.
pub(crate) fn add_text(text: &Text, out: &mut Items<Text>) -> Result<(), OutOfMemory>
    ensures { OnOk result (out.new ≡ out.old ++ text.now ∷ []) }
{
    let text = text.copy()?;
    out.push(text)?;
    Ok(())
}

fn add_leading(mut list: &[Link], out: &mut Items<Text>) -> Result<(), OutOfMemory>
    ensures { OnOk result (out.new ≡ out.old ++ spec.leading_names list.entry.now) }
{
    while let [first, rest @ ..] = list {
        match &first.step {
            LinkStep::MemberLink(name) => add_text(&name.name, out)?,
            LinkStep::IndexLink(_) => return Ok(()),
            LinkStep::CallLink(_) => return Ok(()),
        }
        list = rest;
    }
    Ok(())
}

fn with_member(
    path: Option<StaticPath>,
    name: &Identifier,
) -> Result<Option<StaticPath>, OutOfMemory>
    ensures { IfOk result (λ longer. longer
        ≡ option_map (spec.with_members (name.now.name ∷ [])) path) }
{
    match path {
        None => Ok(None),
        Some(mut path) => {
            add_text(&name.name, &mut path.members)?;
            Ok(Some(path))
        }
    }
}

fn with_links(path: Option<StaticPath>, links: &[Link]) -> Result<Option<StaticPath>, OutOfMemory>
    ensures { let names = spec.leading_names links.now in
        IfOk result (λ longer. longer ≡ option_map (spec.with_members names) path) }
{
    match path {
        None => Ok(None),
        Some(mut path) => {
            add_leading(links, &mut path.members)?;
            Ok(Some(path))
        }
    }
}

#[cycle(path)]
fn path_to(
    alloc: Global,
    depth: usize,
    expression: &Expr,
) -> Result<Option<StaticPath>, OutOfMemory>
    ensures { IfOk result (λ path. path ≡ spec.path_to depth expression.now) }
{
    if depth == 0 {
        return Ok(None);
    }
    path_row(alloc, depth - 1, expression)
}

#[cycle(path)]
fn path_row(
    alloc: Global,
    depth: usize,
    expression: &Expr,
) -> Result<Option<StaticPath>, OutOfMemory>
    ensures { IfOk result (λ path. path ≡ spec.path_row (spec.path_to depth) expression.now) }
{
    match expression {
        Expr::Name(name) => some_name(alloc, name),
        Expr::Parenthesized { inner, .. } => path_to(alloc, depth, inner.get()),
        Expr::Member { object, name, .. } => with_member(
            path_to(alloc, depth, object.get())?,
            name,
        ),
        Expr::Chain { base, links, .. } => {
            if are_member_links(links.as_slice()) {
                with_links(path_to(alloc, depth, base.get())?, links.as_slice())
            } else {
                Ok(None)
            }
        }
        _ => Ok(None),
    }
}

/// The path that an expression is, if it is one. Parentheses count for nothing.
#[tactic(auto, unfolding(crate::specs::StaticPaths::path_of))]
pub(crate) fn path_of(alloc: Global, expression: &Expr) -> Result<Option<StaticPath>, OutOfMemory>
    ensures { IfOk result (λ path. path ≡ spec.path_of expression.now) }
{
    path_to(alloc, TREE_DEPTH, expression)
}

/// The path that an expression reads by itself: of a chain, as far as it has names.
pub(crate) fn used_path(alloc: Global, expression: &Expr) -> Result<Option<StaticPath>, OutOfMemory>
    ensures { IfOk result (λ path. path ≡ spec.used_path expression.now) }
{
    match expression {
        Expr::Chain { base, links, .. } => {
            with_links(path_of(alloc, base.get())?, links.as_slice())
        }
        _ => path_of(alloc, expression),
    }
}
