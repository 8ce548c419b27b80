// Forms that give a truth value at once.

ghost use Rattle.std.specs.Prelude.{◌≡◌, ◌<◌};
ghost use Rattle.js_code.specs.declared.node.Node.TheVariants as node;
ghost use Rattle.js_direct.specs.Direct.{GivesTruth, IsTruthRow, compared, seen, value_of};
ghost use Rattle.js_operation.specs.js_run.Truth.{to_boolean};

use crate::direct::value_into;
use crate::numbers::{DEPTH, operand_at, steps_of};
use crate::plain::Plain;
use js_code::code::Code;
use js_code::node::Node;
use js_state::scopes::Scopes;
use js_store::store::Store;
use js_tree::operator::BinaryOperator;

/// A truth value, and how many steps it takes. Where it takes none, there is no truth value.
#[derive(Clone, Copy)]
pub struct Truth {
    pub truth: bool,
    pub steps: u32,
}

/// No truth value.
#[inline(always)]
fn no_truth() -> Truth
    ensures { result.steps ≡ 0 }
{
    Truth {
        truth: false,
        steps: 0,
    }
}

/// How an operator compares two numbers, if it does.
#[inline]
fn compared(operator: BinaryOperator, left: i64, right: i64) -> Option<bool>
    ensures { result ≡ compared operator left right }
{
    match operator {
        BinaryOperator::Less => Some(left < right),
        BinaryOperator::Greater => Some(right < left),
        BinaryOperator::LessOrEqual => Some(!(right < left)),
        BinaryOperator::GreaterOrEqual => Some(!(left < right)),
        BinaryOperator::LooselyEqual | BinaryOperator::StrictlyEqual => Some(left == right),
        BinaryOperator::LooselyUnequal | BinaryOperator::StrictlyUnequal => Some(!(left == right)),
        _ => None,
    }
}

/// How a binary operator compares two forms that give numbers at once.
#[inline]
pub fn comparison_at<S: Store>(
    code: &Code,
    store: &S,
    scopes: &Scopes,
    scope: u32,
    operator: BinaryOperator,
    left: u32,
    right: u32,
) -> Truth
    ensures { let party = S.owner store.now in
        let sight = seen party (S.objects store.now) code.now scopes.now scope in
        0 < result.steps → IsTruthRow sight (node.Binary operator left right) result }
{
    let left = operand_at(code, store, scopes, scope, left, DEPTH);
    if left.steps == 0 {
        return no_truth();
    }
    let right = operand_at(code, store, scopes, scope, right, DEPTH);
    if right.steps == 0 {
        return no_truth();
    }
    match compared(operator, left.number, right.number) {
        Some(truth) => Truth {
            truth,
            steps: steps_of(left.steps, right.steps),
        },
        None => no_truth(),
    }
}

/// Whether a plain value counts as true (ECMA-262, ToBoolean).
#[inline]
pub fn is_true(value: Plain) -> bool
    ensures { result ≡ to_boolean (value_of value) }
{
    match value {
        Plain::Undefined | Plain::Null => false,
        Plain::Bool(truth) => truth,
        Plain::Int(number) => number != 0,
        Plain::Ref(_) => true,
    }
}

/// Whether what a form gives at once counts as true.
#[inline(never)]
fn any_truth<S: Store>(code: &Code, store: &S, scopes: &Scopes, scope: u32, at: u32) -> Truth
    ensures { let party = S.owner store.now in
        let sight = seen party (S.objects store.now) code.now scopes.now scope in
        0 < result.steps → GivesTruth sight at result }
{
    let mut given = Plain::Undefined;
    let steps = value_into(code, store, scopes, scope, at, &mut given);
    Truth {
        truth: is_true(given),
        steps,
    }
}

/// Whether what a form gives at once counts as true. (Two numbers are compared without a value.)
#[inline]
pub fn truth_at<S: Store>(code: &Code, store: &S, scopes: &Scopes, scope: u32, at: u32) -> Truth
    ensures { let party = S.owner store.now in
        let sight = seen party (S.objects store.now) code.now scopes.now scope in
        0 < result.steps → GivesTruth sight at result }
{
    if let Node::Binary {
        operator,
        left,
        right,
    } = code.node(at)
    {
        let truth = comparison_at(code, store, scopes, scope, operator, left, right);
        if truth.steps > 0 {
            return truth;
        }
    }
    any_truth(code, store, scopes, scope, at)
}
