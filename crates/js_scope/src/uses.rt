// The uses of names that a part has by itself.

ghost use Rattle.std.specs.Prelude.{◌≡◌, ◌++◌, OnOk};
ghost use Rattle.js_scope.specs.Resolutions as spec;
ghost use Rattle.js_walk.specs.Parts.{part_of};

use crate::finding::{Finding, NameUse};
use crate::lookup::resolve_name;
use crate::request::expression_request;
use crate::static_path::{StaticPath, lone_name, path_of, used_path};
use js_names::scope::NameScope;
use js_tree::tree::{Expr, Identifier, Pattern};
use js_walk::subtree::Subtree;
use lava_base::memory::OutOfMemory;
use sqlite_items::Items;
use std::alloc::Global;

fn use_path(
    scopes: &[NameScope],
    writes: bool,
    path: StaticPath,
    out: &mut Items<Finding>,
) -> Result<(), OutOfMemory>
    ensures { OnOk result (out.new ≡ out.old ++ spec.use_path scopes.now writes path) }
{
    let declaration = resolve_name(&path.name, scopes);
    let StaticPath {
        name,
        place,
        members,
    } = path;
    out.push(Finding::Used(NameUse {
        name,
        place,
        members,
        declaration,
        writes,
    }))?;
    Ok(())
}

fn maybe_use(
    scopes: &[NameScope],
    writes: bool,
    path: Option<StaticPath>,
    out: &mut Items<Finding>,
) -> Result<(), OutOfMemory>
    ensures { OnOk result (out.new ≡ out.old ++ spec.maybe_use scopes.now writes path) }
{
    match path {
        None => Ok(()),
        Some(path) => use_path(scopes, writes, path, out),
    }
}

fn read(
    alloc: Global,
    scopes: &[NameScope],
    expression: &Expr,
    out: &mut Items<Finding>,
) -> Result<(), OutOfMemory>
    ensures { OnOk result (out.new
        ≡ out.old ++ spec.expression_findings scopes.now expression.now) }
{
    let path = used_path(alloc, expression)?;
    maybe_use(scopes, false, path, out)?;
    expression_request(alloc, scopes, expression, out)
}

fn written(
    alloc: Global,
    scopes: &[NameScope],
    expression: &Expr,
    out: &mut Items<Finding>,
) -> Result<(), OutOfMemory>
    ensures { OnOk result (out.new ≡ out.old ++ spec.written scopes.now expression.now) }
{
    let path = path_of(alloc, expression)?;
    maybe_use(scopes, true, path, out)
}

fn bound(
    alloc: Global,
    scopes: &[NameScope],
    assigns: bool,
    name: &Identifier,
    out: &mut Items<Finding>,
) -> Result<(), OutOfMemory>
    ensures { OnOk result (out.new ≡ out.old ++ spec.bound scopes.now assigns name.now) }
{
    if assigns {
        let path = lone_name(alloc, name)?;
        use_path(scopes, true, path, out)
    } else {
        Ok(())
    }
}

fn pattern_use(
    alloc: Global,
    scopes: &[NameScope],
    assigns: bool,
    pattern: &Pattern,
    out: &mut Items<Finding>,
) -> Result<(), OutOfMemory>
    ensures { OnOk result (out.new ≡ out.old ++ spec.pattern_use scopes.now assigns pattern.now) }
{
    match pattern {
        Pattern::Bound(name) => bound(alloc, scopes, assigns, name, out),
        Pattern::Target(expression) => written(alloc, scopes, expression.get(), out),
        Pattern::ObjectPattern { .. } => Ok(()),
        Pattern::ArrayPattern { .. } => Ok(()),
    }
}

/// Appends what a part has by itself: uses of names, and requests.
pub(crate) fn part_findings(
    alloc: Global,
    scopes: &[NameScope],
    part: &Subtree<'_>,
    out: &mut Items<Finding>,
) -> Result<(), OutOfMemory>
    ensures { OnOk result (out.new ≡ out.old ++ spec.part_findings scopes.now (part_of part.now)) }
{
    match *part {
        Subtree::Expression(expression) => read(alloc, scopes, expression, out),
        Subtree::Update(_, expression) => written(alloc, scopes, expression, out),
        Subtree::Pattern(assigns, pattern) => pattern_use(alloc, scopes, assigns, pattern, out),
        _ => Ok(()),
    }
}
