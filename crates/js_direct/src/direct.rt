// Forms that give a plain value at once.

ghost use Rattle.std.specs.Prelude.{◌≡◌, ◌<◌, IfSome, Some};
ghost use Rattle.std.specs.Fmt.{signed_decimal};
ghost use Rattle.js_text.specs.Indices.{key_of_text};
ghost use Rattle.js_state.specs.Scopes.{outwards, slot_of};
ghost use Rattle.js_code.specs.declared.node.Node.TheVariants as node;
ghost use Rattle.js_direct.specs.Direct.{GivesAtOnce, HasData, IsDirect, IsDirectNamed, IsDirectRow, seen, value_of};

use crate::numbers::{DEPTH, number_at, operand_at, steps_of};
use crate::plain::{Plain, plain_of};
use crate::properties::{indexed_data, named_data, object_at};
use crate::truths::comparison_at;
use js_code::code::Code;
use js_code::node::Node;
use js_state::scopes::Scopes;
use js_store::store::Store;
use js_text::text::Text;
use js_text::value::Value;
use js_tree::operator::BinaryOperator;
use lava_base::ids::ObjId;

/// What a form gives, and how many steps that takes.
#[derive(Clone, Copy)]
pub struct Direct {
    pub value: Plain,
    pub steps: u32,
}

/// How a binary operator compares forms that give numbers at once, as a value.
fn comparison_value<S: Store>(
    code: &Code,
    store: &S,
    scopes: &Scopes,
    scope: u32,
    operator: BinaryOperator,
    left: u32,
    right: u32,
) -> Option<Direct>
    ensures { let party = S.owner store.now in
        let sight = seen party (S.objects store.now) code.now scopes.now scope in
        IfSome result (IsDirectRow sight (node.Binary operator left right)) }
{
    let truth = comparison_at(code, store, scopes, scope, operator, left, right);
    if truth.steps == 0 {
        return None;
    }
    Some(Direct {
        value: Plain::Bool(truth.truth),
        steps: truth.steps,
    })
}

/// A number that a form gives at once, as a value.
#[inline]
fn number_value<S: Store>(
    code: &Code,
    store: &S,
    scopes: &Scopes,
    scope: u32,
    at: u32,
) -> Option<Direct>
    ensures { let party = S.owner store.now in
        let sight = seen party (S.objects store.now) code.now scopes.now scope in
        IfSome result (IsDirect sight at) }
{
    let number = number_at(code, store, scopes, scope, at, DEPTH);
    if number.steps == 0 {
        return None;
    }
    Some(Direct {
        value: Plain::Int(number.number),
        steps: number.steps,
    })
}

/// A slot that has a plain value.
#[inline]
fn slot_at(scopes: &Scopes, scope: u32, hops: u32, slot: u32) -> Option<Plain>
    ensures { let value = slot_of scopes.now (outwards scopes.now hops scope) slot in
        IfSome result (λ p. value ≡ Some (value_of p)) }
{
    match scopes.value(scopes.outward(scope, hops), slot) {
        Some(value) => plain_of(value),
        None => None,
    }
}

/// A named property that has a plain value.
#[inline]
fn named_plain<S: Store>(store: &S, id: ObjId, name: &Text) -> Option<Plain>
    ensures { let key = key_of_text name.now in
        IfSome result (λ p. HasData (S.objects store.now) id.0 key (value_of p)) }
{
    match named_data(store, id, name) {
        Some(value) => plain_of(value),
        None => None,
    }
}

/// An indexed property that has a plain value.
#[inline]
fn indexed_plain<S: Store>(store: &S, id: ObjId, number: i64) -> Option<Plain>
    ensures { let key = key_of_text (signed_decimal number) in
        IfSome result (λ p. HasData (S.objects store.now) id.0 key (value_of p)) }
{
    match indexed_data(store, id, number) {
        Some(value) => plain_of(value),
        None => None,
    }
}

/// What the property of an object with a name gives, where it has a plain value.
#[inline]
#[tactic(auto, using(crate::proofs::Given::direct_named))]
fn named_at<S: Store>(
    code: &Code,
    store: &S,
    scopes: &Scopes,
    scope: u32,
    object: u32,
    key: u32,
    name: u32,
) -> Option<Direct>
    ensures { let party = S.owner store.now in
        let sight = seen party (S.objects store.now) code.now scopes.now scope in
        IfSome result (IsDirectNamed sight object key name) }
{
    let Some(id) = object_at(code, store, scopes, scope, object) else {
        return None;
    };
    match named_plain(store, id, code.text(name)) {
        Some(value) => Some(Direct { value, steps: 4 }),
        None => None,
    }
}

/// What the property of an object gives whose key gives a number at once.
#[inline]
#[tactic(auto, using(crate::proofs::Given::direct_indexed))]
fn indexed_at<S: Store>(
    code: &Code,
    store: &S,
    scopes: &Scopes,
    scope: u32,
    object: u32,
    key: u32,
) -> Option<Direct>
    ensures { let party = S.owner store.now in
        let sight = seen party (S.objects store.now) code.now scopes.now scope in
        IfSome result (IsDirectRow sight (node.Get object key)) }
{
    let Some(id) = object_at(code, store, scopes, scope, object) else {
        return None;
    };
    let index = operand_at(code, store, scopes, scope, key, DEPTH);
    if index.steps == 0 {
        return None;
    }
    let steps = steps_of(2, index.steps);
    if steps == 0 {
        return None;
    }
    match indexed_plain(store, id, index.number) {
        Some(value) => Some(Direct { value, steps }),
        None => None,
    }
}

/// What a property gives at once, if it does.
#[inline]
fn property_at<S: Store>(
    code: &Code,
    store: &S,
    scopes: &Scopes,
    scope: u32,
    object: u32,
    key: u32,
) -> Option<Direct>
    ensures { let party = S.owner store.now in
        let sight = seen party (S.objects store.now) code.now scopes.now scope in
        IfSome result (IsDirectRow sight (node.Get object key)) }
{
    match code.node(key) {
        Node::Text(name) => named_at(code, store, scopes, scope, object, key, name),
        _ => indexed_at(code, store, scopes, scope, object, key),
    }
}

/// What a form gives at once that is no number, if it does.
#[tactic(auto, using(crate::proofs::Given::at_row))]
fn other_at<S: Store>(
    code: &Code,
    store: &S,
    scopes: &Scopes,
    scope: u32,
    at: u32,
) -> Option<Direct>
    ensures { let party = S.owner store.now in
        let sight = seen party (S.objects store.now) code.now scopes.now scope in
        IfSome result (IsDirect sight at) }
{
    match code.node(at) {
        Node::Undefined => Some(Direct {
            value: Plain::Undefined,
            steps: 1,
        }),
        Node::Null => Some(Direct {
            value: Plain::Null,
            steps: 1,
        }),
        Node::Bool(truth) => Some(Direct {
            value: Plain::Bool(truth),
            steps: 1,
        }),
        Node::Local { hops, slot } => match slot_at(scopes, scope, hops, slot) {
            Some(value) => Some(Direct { value, steps: 1 }),
            None => None,
        },
        Node::Binary {
            operator,
            left,
            right,
        } => comparison_value(code, store, scopes, scope, operator, left, right),
        Node::Get { object, key } => property_at(code, store, scopes, scope, object, key),
        _ => None,
    }
}

/// What a form gives at once, if it does.
pub fn value_at<S: Store>(
    code: &Code,
    store: &S,
    scopes: &Scopes,
    scope: u32,
    at: u32,
) -> Option<Direct>
    ensures { let party = S.owner store.now in
        let sight = seen party (S.objects store.now) code.now scopes.now scope in
        IfSome result (IsDirect sight at) }
{
    match number_value(code, store, scopes, scope, at) {
        Some(direct) => Some(direct),
        None => other_at(code, store, scopes, scope, at),
    }
}

/// What a form gives at once that is no number, and how many steps that takes; none where it does not.
#[inline(never)]
fn other_into<S: Store>(
    code: &Code,
    store: &S,
    scopes: &Scopes,
    scope: u32,
    at: u32,
    given: &mut Plain,
) -> u32
    ensures { let party = S.owner store.now in
        let sight = seen party (S.objects store.now) code.now scopes.now scope in
        0 < result → GivesAtOnce sight at (value_of given.new) result }
{
    match other_at(code, store, scopes, scope, at) {
        Some(direct) => {
            *given = direct.value;
            direct.steps
        }
        None => 0,
    }
}

/// What a form gives at once, and how many steps that takes; none where it does not. (A number wants no `Direct`.)
#[inline(always)]
pub fn value_into<S: Store>(
    code: &Code,
    store: &S,
    scopes: &Scopes,
    scope: u32,
    at: u32,
    given: &mut Plain,
) -> u32
    ensures { let party = S.owner store.now in
        let sight = seen party (S.objects store.now) code.now scopes.now scope in
        0 < result → GivesAtOnce sight at (value_of given.new) result }
{
    let number = operand_at(code, store, scopes, scope, at, DEPTH);
    if number.steps > 0 {
        *given = Plain::Int(number.number);
        return number.steps;
    }
    other_into(code, store, scopes, scope, at, given)
}
