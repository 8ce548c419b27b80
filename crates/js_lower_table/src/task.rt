// What the entries of the recursion are asked.

use crate::bound_value::BoundValue;
use js_names::bound::TREE_DEPTH;
use js_term::term::TemplateKind;
use js_text::text::Text;
use js_tree::tree::{Expr, Function, Pattern, Stmt};

/// How many steps the recursion goes down: a tree of a source has at most 256 levels, and a function takes two steps.
pub const LOWERING_DEPTH: usize = 2 * TREE_DEPTH;

/// A tree that is to be lowered.
#[derive(Clone, Copy)]
pub enum Task<'a> {
    /// An expression; the name is for a function or class that has none.
    Expression {
        name: Option<&'a Text>,
        tree: &'a Expr,
    },
    /// A statement, with the labels before it.
    Statement {
        labels: &'a [Text],
        tree: &'a Stmt,
    },
    /// A pattern that is assigned or initialised.
    Binding {
        assigned: bool,
        from: BoundValue<'a>,
        tree: &'a Pattern,
    },
    /// A function.
    Body {
        kind: TemplateKind,
        name: Option<&'a Text>,
        tree: &'a Function,
    },
}
