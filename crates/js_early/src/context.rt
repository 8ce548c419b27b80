// What the rules look at round a part: what it may do there, and the labels.

ghost use Rattle.std.specs.Prelude.{◌≡◌, ◌++◌};
ghost use Rattle.js_early.specs.Contexts as spec;
ghost use Rattle.js_walk.specs.Parts.{part_of};

use js_names::bound::TREE_DEPTH;
use js_text::text::Text;
use js_tree::tree::{FunctionKind, SourceKind, Stmt};
use js_walk::subtree::Subtree;

/// What may be done at a part.
#[derive(Clone, Copy)]
pub struct EarlyContext {
    pub in_loop: bool,
    pub in_switch: bool,
    pub may_return: bool,
    pub new_target: bool,
    pub super_property: bool,
    pub super_call: bool,
}

/// A label round a part.
#[derive(Drop)]
pub struct EarlyLabel {
    pub name: Text,
    /// Whether it is the label of a loop.
    pub is_loop: bool,
}

fn in_module(kind: SourceKind) -> bool
    ensures { result ≡ spec.in_module kind }
{
    match kind {
        SourceKind::Module => true,
        SourceKind::EvaluatedText => false,
    }
}

/// At the top of a source.
pub(crate) fn source_context(kind: SourceKind) -> EarlyContext
    ensures { result ≡ spec.source_context kind }
{
    EarlyContext {
        in_loop: false,
        in_switch: false,
        may_return: in_module(kind),
        new_target: in_module(kind),
        super_property: false,
        super_call: false,
    }
}

fn arrow_context(context: EarlyContext) -> EarlyContext
    ensures { result ≡ spec.arrow_context context }
{
    EarlyContext {
        in_loop: false,
        in_switch: false,
        may_return: true,
        new_target: context.new_target,
        super_property: context.super_property,
        super_call: context.super_call,
    }
}

fn body_context(super_property: bool, super_call: bool) -> EarlyContext
    ensures { result ≡ spec.body_context super_property super_call }
{
    EarlyContext {
        in_loop: false,
        in_switch: false,
        may_return: true,
        new_target: true,
        super_property,
        super_call,
    }
}

fn function_context(context: EarlyContext, derived: bool, kind: FunctionKind) -> EarlyContext
    ensures { result ≡ spec.function_context context derived kind }
{
    match kind {
        FunctionKind::Plain => body_context(false, false),
        FunctionKind::Arrow => arrow_context(context),
        FunctionKind::Method => body_context(true, derived),
        FunctionKind::Getter => body_context(true, false),
        FunctionKind::Setter => body_context(true, false),
    }
}

fn loop_context(context: EarlyContext) -> EarlyContext
    ensures { result ≡ spec.loop_context context }
{
    EarlyContext {
        in_loop: true,
        in_switch: context.in_switch,
        may_return: context.may_return,
        new_target: context.new_target,
        super_property: context.super_property,
        super_call: context.super_call,
    }
}

fn switch_context(context: EarlyContext) -> EarlyContext
    ensures { result ≡ spec.switch_context context }
{
    EarlyContext {
        in_loop: context.in_loop,
        in_switch: true,
        may_return: context.may_return,
        new_target: context.new_target,
        super_property: context.super_property,
        super_call: context.super_call,
    }
}

/// For what stands below a part.
pub(crate) fn context_in(context: EarlyContext, part: &Subtree<'_>) -> EarlyContext
    ensures { result ≡ spec.context_in context (part_of part.now) }
{
    match *part {
        Subtree::Module(source) => source_context(source.kind),
        Subtree::Function(derived, function) => {
            function_context(context, derived, function.kind)
        }
        Subtree::Loop(_) => loop_context(context),
        Subtree::Cases(_) => switch_context(context),
        _ => context,
    }
}

#[cycle(looped)]
fn is_loop_to(depth: usize, statement: &Stmt) -> bool
    ensures { result ≡ spec.is_loop_to depth statement.now }
{
    if depth == 0 {
        return false;
    }
    is_loop_row(depth - 1, statement)
}

#[cycle(looped)]
fn is_loop_row(depth: usize, statement: &Stmt) -> bool
    ensures { result ≡ spec.is_loop_row (spec.is_loop_to depth) statement.now }
{
    match statement {
        Stmt::While { .. } => true,
        Stmt::DoWhile { .. } => true,
        Stmt::For { .. } => true,
        Stmt::ForOf { .. } => true,
        Stmt::ForIn { .. } => true,
        Stmt::Labelled { body, .. } => is_loop_to(depth, body.get()),
        _ => false,
    }
}

/// Whether a statement is a loop, with labels before it or without (ECMA-262, IterationStatement).
#[tactic(auto, unfolding(crate::specs::Contexts::is_loop))]
pub(crate) fn is_loop(statement: &Stmt) -> bool
    ensures { result ≡ spec.is_loop statement.now }
{
    is_loop_to(TREE_DEPTH, statement)
}
