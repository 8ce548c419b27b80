// Names with static members behind them.

ghost use Rattle.std.specs.Prelude.{◌≡◌, ◌&&◌};
ghost use Rattle.js_walk.specs.Paths as spec;

use js_names::bound::TREE_DEPTH;
use js_tree::tree::{Expr, Link, LinkStep};

fn is_member_link(link: &Link) -> bool
    ensures { result ≡ spec.is_member_link link.now }
{
    match &link.step {
        LinkStep::MemberLink(_) => true,
        LinkStep::IndexLink(_) => false,
        LinkStep::CallLink(_) => false,
    }
}

/// Whether all links are `.` or `?.` and a name.
pub fn are_member_links(mut list: &[Link]) -> bool
    ensures { result ≡ spec.are_member_links list.entry.now }
{
    while let [first, rest @ ..] = list {
        if !is_member_link(first) {
            return false;
        }
        list = rest;
    }
    true
}

#[cycle(path)]
fn is_path_to(depth: usize, expression: &Expr) -> bool
    ensures { result ≡ spec.is_path_to depth expression.now }
{
    if depth == 0 {
        return false;
    }
    is_path_row(depth - 1, expression)
}

#[cycle(path)]
fn is_path_row(depth: usize, expression: &Expr) -> bool
    ensures { result ≡ spec.is_path_row (spec.is_path_to depth) expression.now }
{
    match expression {
        Expr::Name(_) => true,
        Expr::Parenthesized { inner, .. } => is_path_to(depth, inner.get()),
        Expr::Member { object, .. } => is_path_to(depth, object.get()),
        Expr::Chain { base, links, .. } => {
            are_member_links(links.as_slice()) && is_path_to(depth, base.get())
        }
        _ => false,
    }
}

/// Whether an expression is a name with static members behind it. Parentheses count for nothing.
#[tactic(auto, unfolding(crate::specs::Paths::is_path))]
pub fn is_path(expression: &Expr) -> bool
    ensures { result ≡ spec.is_path expression.now }
{
    is_path_to(TREE_DEPTH, expression)
}
