// Calls of the module's own `require` with a string first.

ghost use Rattle.std.specs.Prelude.{◌≡◌, ◌++◌, OnOk};
ghost use Rattle.js_scope.specs.Resolutions as spec;

use crate::finding::{Binding, Finding, ModuleRequest};
use crate::lookup::resolve_name;
use crate::static_path::{StaticPath, path_of};
use js_names::scope::NameScope;
use js_text::text::Text;
use js_tree::tree::{Argument, Expr, Link, LinkStep};
use js_walk::words::is_word;
use lava_base::memory::OutOfMemory;
use lava_base::place::Place;
use sqlite_items::Items;
use std::alloc::Global;

fn is_own(declaration: Option<Binding>) -> bool
    ensures { result ≡ spec.is_own_at declaration }
{
    match declaration {
        None => false,
        Some(binding) => binding.scope == 0 && binding.at == 1,
    }
}

fn is_own_require(scopes: &[NameScope], path: &Option<StaticPath>) -> bool
    ensures { result ≡ spec.is_own_require scopes.now path.now }
{
    match path {
        None => false,
        Some(path) => {
            path.members.len() == 0
                && (is_word(&path.name, b"require") && is_own(resolve_name(&path.name, scopes)))
        }
    }
}

fn put_request(text: &Text, place: Place, out: &mut Items<Finding>) -> Result<(), OutOfMemory>
    ensures { OnOk result (out.new ≡ out.old ++ spec.requested place text.now) }
{
    let text = text.copy()?;
    out.push(Finding::Requested(ModuleRequest { text, place }))?;
    Ok(())
}

fn literal(place: Place, expression: &Expr, out: &mut Items<Finding>) -> Result<(), OutOfMemory>
    ensures { OnOk result (out.new ≡ out.old ++ spec.literal place expression.now) }
{
    match expression {
        Expr::String { value, .. } => put_request(value, place, out),
        _ => Ok(()),
    }
}

fn argument_literal(
    place: Place,
    argument: &Argument,
    out: &mut Items<Finding>,
) -> Result<(), OutOfMemory>
    ensures { OnOk result (out.new ≡ out.old ++ spec.argument_literal place argument.now) }
{
    match argument {
        Argument::Operand(expression) => literal(place, expression.get(), out),
        Argument::SpreadArgument(_) => Ok(()),
    }
}

fn first_literal(
    place: Place,
    arguments: &[Argument],
    out: &mut Items<Finding>,
) -> Result<(), OutOfMemory>
    ensures { OnOk result (out.new ≡ out.old ++ spec.first_literal place arguments.now) }
{
    match arguments {
        [] => Ok(()),
        [first, ..] => argument_literal(place, first, out),
    }
}

fn request(
    alloc: Global,
    scopes: &[NameScope],
    place: Place,
    callee: &Expr,
    arguments: &[Argument],
    out: &mut Items<Finding>,
) -> Result<(), OutOfMemory>
    ensures { OnOk result (out.new
        ≡ out.old ++ spec.request scopes.now place callee.now arguments.now) }
{
    let path = path_of(alloc, callee)?;
    if is_own_require(scopes, &path) {
        first_literal(place, arguments, out)
    } else {
        Ok(())
    }
}

fn link_request(
    alloc: Global,
    scopes: &[NameScope],
    place: Place,
    base: &Expr,
    link: &Link,
    out: &mut Items<Finding>,
) -> Result<(), OutOfMemory>
    ensures { OnOk result (out.new
        ≡ out.old ++ spec.link_request scopes.now place base.now link.now) }
{
    match &link.step {
        LinkStep::CallLink(list) => request(alloc, scopes, place, base, list.as_slice(), out),
        _ => Ok(()),
    }
}

fn chain_request(
    alloc: Global,
    scopes: &[NameScope],
    place: Place,
    base: &Expr,
    links: &[Link],
    out: &mut Items<Finding>,
) -> Result<(), OutOfMemory>
    ensures { OnOk result (out.new
        ≡ out.old ++ spec.chain_request scopes.now place base.now links.now) }
{
    match links {
        [] => Ok(()),
        [first, ..] => link_request(alloc, scopes, place, base, first, out),
    }
}

/// Appends the request that a call is, if it is one.
pub(crate) fn expression_request(
    alloc: Global,
    scopes: &[NameScope],
    expression: &Expr,
    out: &mut Items<Finding>,
) -> Result<(), OutOfMemory>
    ensures { OnOk result (out.new ≡ out.old ++ spec.expression_request scopes.now expression.now) }
{
    match expression {
        Expr::Call {
            place,
            callee,
            arguments,
        } => {
            request(
                alloc,
                scopes,
                *place,
                callee.get(),
                arguments.as_slice(),
                out,
            )
        }
        Expr::Chain { place, base, links } => {
            chain_request(alloc, scopes, *place, base.get(), links.as_slice(), out)
        }
        _ => Ok(()),
    }
}
