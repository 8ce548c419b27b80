// The rules of each part by itself.

ghost use Rattle.std.specs.Prelude.{◌≡◌, ◌++◌, [], false, OnOk, IfOk};
ghost use Rattle.js_early.specs.Rules as spec;
ghost use Rattle.js_names.specs.Lists.{flat, from_option};
ghost use Rattle.js_names.specs.Names.{binding_vars, bound_names, declaration_vars};
ghost use Rattle.js_walk.specs.Parts.{part_of};

use crate::context::{EarlyContext, EarlyLabel};
use crate::fault::{EarlyFault, EarlyRule, unless};
use crate::jumps::{break_faults, continue_faults, label_faults};
use crate::names::{all_clashes, maybe_binding, repeated};
use crate::scopes::parameters;
use crate::targets::{expression_faults, pattern_faults, update_faults};
use js_names::bound;
use js_names::declared::DeclaredName;
use js_names::scope::NameScope;
use js_tree::tree::{
    Catch, Class, ClassMember, Declaration, DeclarationKind, ForInit, Function, Pattern,
    PatternElement, Stmt,
};
use js_walk::classes::is_constructor;
use js_walk::subtree::Subtree;
use lava_base::memory::OutOfMemory;
use sqlite_items::{Boxed, Items};
use std::alloc::Global;

fn function_faults(
    alloc: Global,
    function: &Function,
    out: &mut Items<EarlyFault>,
) -> Result<(), OutOfMemory>
    ensures { OnOk result (out.new ≡ out.old ++ spec.function_faults function.now) }
{
    maybe_binding(&function.name, out)?;
    let names = parameters(alloc, function)?;
    repeated(
        EarlyRule::Parameter,
        NameScope::new(alloc),
        names.as_slice(),
        out,
    )
}

fn constructors(mut list: &[ClassMember], out: &mut Items<EarlyFault>) -> Result<(), OutOfMemory>
    ensures { OnOk result (out.new ≡ out.old ++ spec.constructors false list.entry.now) }
{
    let mut seen = false;
    while let [first, rest @ ..] = list {
        let found = is_constructor(first);
        unless(!(seen && found), EarlyRule::Constructor, first.place, out)?;
        seen = seen || found;
        list = rest;
    }
    Ok(())
}

fn class_faults(class: &Class, out: &mut Items<EarlyFault>) -> Result<(), OutOfMemory>
    ensures { OnOk result (out.new ≡ out.old ++ spec.class_faults class.now) }
{
    maybe_binding(&class.name, out)?;
    constructors(class.members.as_slice(), out)
}

fn caught_names(
    alloc: Global,
    parameter: &Option<Boxed<Pattern>>,
) -> Result<Items<DeclaredName>, OutOfMemory>
    ensures { IfOk result (λ names. names ≡ from_option (bound_names false) parameter.now) }
{
    let mut names = Items::new(alloc);
    bound::maybe_bound_names(false, parameter, &mut names)?;
    Ok(names)
}

fn catch_faults(
    alloc: Global,
    catch: &Catch,
    out: &mut Items<EarlyFault>,
) -> Result<(), OutOfMemory>
    ensures { OnOk result (out.new ≡ out.old ++ spec.catch_faults catch.now) }
{
    let names = caught_names(alloc, &catch.parameter)?;
    repeated(
        EarlyRule::Parameter,
        NameScope::new(alloc),
        names.as_slice(),
        out,
    )
}

fn has_default(element: &PatternElement) -> bool
    ensures { result ≡ spec.has_default element.now }
{
    element.default.is_some()
}

fn have_defaults(mut list: &[PatternElement]) -> bool
    ensures { result ≡ spec.have_defaults list.entry.now }
{
    while let [first, rest @ ..] = list {
        if !has_default(first) {
            return false;
        }
        list = rest;
    }
    true
}

fn const_values(declaration: &Declaration, out: &mut Items<EarlyFault>) -> Result<(), OutOfMemory>
    ensures { OnOk result (out.new ≡ out.old ++ spec.const_values declaration.now) }
{
    let ok = !bound::is_const(declaration.kind)
        || have_defaults(declaration.declarators.as_slice());
    unless(ok, EarlyRule::Const, declaration.place, out)
}

fn var_names(alloc: Global, declaration: &Declaration) -> Result<Items<DeclaredName>, OutOfMemory>
    ensures { IfOk result (λ names. names ≡ declaration_vars declaration.now) }
{
    let mut names = Items::new(alloc);
    bound::declaration_vars(declaration, &mut names)?;
    Ok(names)
}

fn declaration_faults(
    alloc: Global,
    scopes: &[NameScope],
    declaration: &Declaration,
    out: &mut Items<EarlyFault>,
) -> Result<(), OutOfMemory>
    ensures { OnOk result (out.new
        ≡ out.old ++ spec.declaration_faults scopes.now declaration.now) }
{
    const_values(declaration, out)?;
    let names = var_names(alloc, declaration)?;
    all_clashes(scopes, names.as_slice(), out)
}

fn init_faults(
    alloc: Global,
    scopes: &[NameScope],
    init: &ForInit,
    out: &mut Items<EarlyFault>,
) -> Result<(), OutOfMemory>
    ensures { OnOk result (out.new ≡ out.old ++ spec.init_faults scopes.now init.now) }
{
    match init {
        ForInit::NoInit => Ok(()),
        ForInit::InitDeclaration(declaration) => {
            declaration_faults(alloc, scopes, declaration, out)
        }
        ForInit::InitExpression(_) => Ok(()),
    }
}

fn each_names(
    alloc: Global,
    kind: DeclarationKind,
    pattern: &Pattern,
) -> Result<Items<DeclaredName>, OutOfMemory>
    ensures { IfOk result (λ names. names ≡ binding_vars kind pattern.now) }
{
    let mut names = Items::new(alloc);
    bound::binding_vars(kind, pattern, &mut names)?;
    Ok(names)
}

fn each_faults(
    alloc: Global,
    scopes: &[NameScope],
    kind: DeclarationKind,
    pattern: &Pattern,
    out: &mut Items<EarlyFault>,
) -> Result<(), OutOfMemory>
    ensures { OnOk result (out.new ≡ out.old ++ spec.each_faults scopes.now kind pattern.now) }
{
    let names = each_names(alloc, kind, pattern)?;
    all_clashes(scopes, names.as_slice(), out)
}

fn statement_faults(
    alloc: Global,
    context: EarlyContext,
    labels: &[EarlyLabel],
    scopes: &[NameScope],
    statement: &Stmt,
    out: &mut Items<EarlyFault>,
) -> Result<(), OutOfMemory>
    ensures { OnOk result (out.new
        ≡ out.old ++ spec.statement_faults context labels.now scopes.now statement.now) }
{
    match statement {
        Stmt::Declare(declaration) => declaration_faults(alloc, scopes, declaration, out),
        Stmt::For { init, .. } => init_faults(alloc, scopes, init, out),
        Stmt::Continue { place, label } => continue_faults(context, labels, *place, label, out),
        Stmt::Break { place, label } => break_faults(context, labels, *place, label, out),
        Stmt::Return { place, .. } => unless(context.may_return, EarlyRule::Return, *place, out),
        Stmt::Labelled { label, body } => label_faults(labels, label, body.get(), out),
        _ => Ok(()),
    }
}

/// Appends what is wrong with a part by itself, but for the names of its scope.
pub(crate) fn part_faults(
    alloc: Global,
    context: EarlyContext,
    labels: &[EarlyLabel],
    scopes: &[NameScope],
    part: &Subtree<'_>,
    out: &mut Items<EarlyFault>,
) -> Result<(), OutOfMemory>
    ensures { OnOk result (out.new
        ≡ out.old ++ spec.part_faults context labels.now scopes.now (part_of part.now)) }
{
    match *part {
        Subtree::Expression(expression) => expression_faults(context, expression, out),
        Subtree::Update(place, expression) => update_faults(context, place, expression, out),
        Subtree::Pattern(_, pattern) => pattern_faults(context, pattern, out),
        Subtree::Function(_, function) => function_faults(alloc, function, out),
        Subtree::Class(class) => class_faults(class, out),
        Subtree::Statement(statement) => {
            statement_faults(alloc, context, labels, scopes, statement, out)
        }
        Subtree::Catch(catch) => catch_faults(alloc, catch, out),
        Subtree::Each(kind, pattern, _) => each_faults(alloc, scopes, kind, pattern, out),
        _ => Ok(()),
    }
}
