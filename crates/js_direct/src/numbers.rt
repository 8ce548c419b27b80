// Forms that give a number at once.

ghost use Rattle.std.specs.Prelude.{◌≡◌, ◌+◌, ◌<◌, Some};
ghost use Rattle.std.specs.Fmt.{signed_decimal};
ghost use Rattle.js_text.specs.Indices.{key_of_text};
ghost use Rattle.js_text.specs.declared.value.Value.TheVariants.{Int};
ghost use Rattle.js_state.specs.Scopes.{outwards, slot_of};
ghost use Rattle.js_operation.specs.Computing.{number_or_end};
ghost use Rattle.js_operation.specs.declared.operation.Computed.TheVariants.{Is};
ghost use Rattle.js_code.specs.declared.node.Node.TheVariants as node;
ghost use Rattle.js_operation.specs.js_run.Operators.{numeric};
ghost use Rattle.js_direct.specs.Direct.{GivesNumber, HasData, IsNumberRow, seen};
ghost use Rattle.js_tree.specs.declared.operator.UnaryOperator.TheVariants.{Plus};

use crate::properties::{indexed_data, named_data, object_at};
use js_code::code::Code;
use js_code::node::Node;
use js_operators::numbers::number_by;
use js_state::scopes::Scopes;
use js_store::store::Store;
use js_text::text::Text;
use js_text::value::Value;
use js_tree::operator::{BinaryOperator, UnaryOperator};
use lava_base::ids::ObjId;

/// How deep a form may be.
pub const DEPTH: u32 = 6;

/// How many steps a form may take.
pub const MOST_STEPS: u32 = 1000;

/// A number, and how many steps it takes. Where it takes none, there is no number.
#[derive(Clone, Copy)]
pub struct Counted {
    pub number: i64,
    pub steps: u32,
}

/// No number.
#[inline(always)]
fn none() -> Counted
    ensures { result.steps ≡ 0 }
{
    Counted {
        number: 0,
        steps: 0,
    }
}

/// The steps of an operator and its operands, where these are not too many; else none.
#[inline(always)]
pub fn steps_of(left: u32, right: u32) -> u32
    ensures { 0 < result → result ≡ 1 + left + right }
{
    if left > MOST_STEPS || right > MOST_STEPS {
        return 0;
    }
    1 + left + right
}

/// A slot that has a number.
#[inline(always)]
pub(crate) fn slot_number(scopes: &Scopes, scope: u32, hops: u32, slot: u32) -> Counted
    ensures { let value = slot_of scopes.now (outwards scopes.now hops scope) slot in
        0 < result.steps → (value ≡ Some (Int result.number)) × (result.steps ≡ 1) }
{
    match scopes.value(scopes.outward(scope, hops), slot) {
        Some(Value::Int(number)) => Counted {
            number: *number,
            steps: 1,
        },
        _ => none(),
    }
}

/// A named property that has a number.
#[inline]
fn named_number<S: Store>(store: &S, id: ObjId, name: &Text) -> Counted
    ensures { let key = key_of_text name.now in
        0 < result.steps
        → HasData (S.objects store.now) id.0 key (Int result.number) × (result.steps ≡ 4) }
{
    match named_data(store, id, name) {
        Some(Value::Int(number)) => Counted {
            number: *number,
            steps: 4,
        },
        _ => none(),
    }
}

/// An indexed property that has a number, once the index is known.
#[inline]
fn indexed_number<S: Store>(store: &S, id: ObjId, index: Counted) -> Counted
    ensures { let key = key_of_text (signed_decimal index.number) in
        let steps = 3 + index.steps in
        0 < result.steps
        → HasData (S.objects store.now) id.0 key (Int result.number) × (result.steps ≡ steps) }
{
    let steps = steps_of(2, index.steps);
    if steps == 0 {
        return none();
    }
    match indexed_data(store, id, index.number) {
        Some(Value::Int(number)) => Counted {
            number: *number,
            steps,
        },
        _ => none(),
    }
}

/// What a binary operator gives, once the operands are known.
#[inline]
pub(crate) fn operated(operator: BinaryOperator, left: Counted, right: Counted) -> Counted
    ensures number { let number = number_or_end (numeric operator left.number right.number) in
        0 < result.steps → number ≡ Is result.number }
    ensures steps { 0 < result.steps → result.steps ≡ 1 + left.steps + right.steps }
{
    let steps = steps_of(left.steps, right.steps);
    match number_by(operator, left.number, right.number) {
        Some(number) => Counted { number, steps },
        None => none(),
    }
}

/// A form that gives a number at once, where it is not deeper than so much. (A literal and a slot want no call.)
#[cycle(number)]
#[inline(always)]
pub fn operand_at<S: Store>(
    code: &Code,
    store: &S,
    scopes: &Scopes,
    scope: u32,
    at: u32,
    depth: u32,
) -> Counted
    ensures { let party = S.owner store.now in
        let sight = seen party (S.objects store.now) code.now scopes.now scope in
        0 < result.steps → GivesNumber sight at result }
{
    match code.node(at) {
        Node::Int(number) => Counted { number, steps: 1 },
        Node::Local { hops, slot } => slot_number(scopes, scope, hops, slot),
        _ => number_at(code, store, scopes, scope, at, depth),
    }
}

/// An operator on two forms that give a number at once.
#[cycle(number)]
fn binary_number<S: Store>(
    code: &Code,
    store: &S,
    scopes: &Scopes,
    scope: u32,
    operator: BinaryOperator,
    left: u32,
    right: u32,
    depth: u32,
) -> Counted
    ensures { let party = S.owner store.now in
        let sight = seen party (S.objects store.now) code.now scopes.now scope in
        0 < result.steps → IsNumberRow sight (node.Binary operator left right) result }
{
    let left = operand_at(code, store, scopes, scope, left, depth);
    if left.steps == 0 {
        return none();
    }
    let right = operand_at(code, store, scopes, scope, right, depth);
    if right.steps == 0 {
        return none();
    }
    operated(operator, left, right)
}

/// `+` of a form that gives a number at once.
#[cycle(number)]
fn plus_number<S: Store>(
    code: &Code,
    store: &S,
    scopes: &Scopes,
    scope: u32,
    operand: u32,
    depth: u32,
) -> Counted
    ensures { let party = S.owner store.now in
        let sight = seen party (S.objects store.now) code.now scopes.now scope in
        0 < result.steps → IsNumberRow sight (node.Unary Plus operand) result }
{
    let number = operand_at(code, store, scopes, scope, operand, depth);
    if number.steps == 0 {
        return none();
    }
    Counted {
        number: number.number,
        steps: steps_of(number.steps, 0),
    }
}

/// A property that has a number.
#[cycle(number)]
fn property_number<S: Store>(
    code: &Code,
    store: &S,
    scopes: &Scopes,
    scope: u32,
    object: u32,
    key: u32,
    depth: u32,
) -> Counted
    ensures { let party = S.owner store.now in
        let sight = seen party (S.objects store.now) code.now scopes.now scope in
        0 < result.steps → IsNumberRow sight (node.Get object key) result }
{
    let Some(id) = object_at(code, store, scopes, scope, object) else {
        return none();
    };
    if let Node::Text(name) = code.node(key) {
        return named_number(store, id, code.text(name));
    }
    let index = operand_at(code, store, scopes, scope, key, depth);
    if index.steps == 0 {
        return none();
    }
    indexed_number(store, id, index)
}

/// A form that gives a number at once, where it is not deeper than so much.
#[cycle(number)]
pub fn number_at<S: Store>(
    code: &Code,
    store: &S,
    scopes: &Scopes,
    scope: u32,
    at: u32,
    depth: u32,
) -> Counted
    ensures { let party = S.owner store.now in
        let sight = seen party (S.objects store.now) code.now scopes.now scope in
        0 < result.steps → GivesNumber sight at result }
{
    if depth == 0 {
        return none();
    }
    match code.node(at) {
        Node::Int(number) => Counted { number, steps: 1 },
        Node::Local { hops, slot } => slot_number(scopes, scope, hops, slot),
        Node::Binary {
            operator,
            left,
            right,
        } => binary_number(code, store, scopes, scope, operator, left, right, depth - 1),
        Node::Get { object, key } => property_number(
            code,
            store,
            scopes,
            scope,
            object,
            key,
            depth - 1,
        ),
        Node::Unary {
            operator: UnaryOperator::Plus,
            operand,
        } => plus_number(code, store, scopes, scope, operand, depth - 1),
        _ => none(),
    }
}
