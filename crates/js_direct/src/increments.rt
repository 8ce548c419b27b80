// Bodies like that of `x++`, which keep a number of a slot in a scope of their own, write what an operator makes of it, and give the old one.

ghost use Rattle.std.specs.Prelude.{◌≡◌, ◌<◌, ℕ, IfSome, IsTrue, List, Some};
ghost use Rattle.js_code.specs.Decoded.{layer_of, term_at};
ghost use Rattle.js_code.specs.declared.node.Node.TheVariants as node;
ghost use Rattle.js_direct.specs.Direct.{seen};
ghost use Rattle.js_direct.specs.Increments.{CameOfBody, ChangesNumber, IsIncremented, KeepsNumber};
ghost use Rattle.js_state.specs.Scopes.{outwards, slot_of, with_slot};
ghost use Rattle.js_store.specs.Objects.{Owned};
ghost use Rattle.js_term.specs.declared.term.Term.{out-Term};
ghost use Rattle.js_text.specs.declared.value.Value.TheVariants.{Int};

use crate::numbers::{Counted, operated, slot_number};
use js_code::code::Code;
use js_code::node::Node;
use js_state::scopes::Scopes;
use js_text::value::Value;
use js_tree::operator::{BinaryOperator, UnaryOperator};

/// How many steps such a body takes.
pub const INCREMENT_STEPS: u32 = 9;

/// A slot so many hops outwards.
#[derive(Clone, Copy)]
struct Place {
    hops: u32,
    slot: u32,
}

/// What an operator makes of a number, with another one behind it.
#[derive(Clone, Copy)]
struct Change {
    operator: BinaryOperator,
    amount: i64,
}

/// What came of such a body.
#[derive(Clone, Copy)]
pub enum Incremented {
    /// It gave this number.
    Gave(i64),
    /// It is none, or does not do so simply; nothing was done.
    Nothing,
    /// No program comes to this.
    Failed,
}

/// The slot whose number a form keeps in the first slot of the scope.
#[inline(always)]
fn kept_slot(code: &Code, at: u32) -> Option<Place>
    ensures { IfSome result (λ p. KeepsNumber code.now at p.hops p.slot) }
{
    let Node::Init {
        hops: 0,
        slot: 0,
        value,
    } = code.node(at)
    else {
        return None;
    };
    let Node::Unary {
        operator: UnaryOperator::Plus,
        operand,
    } = code.node(value)
    else {
        return None;
    };
    let Node::Local { hops, slot } = code.node(operand) else {
        return None;
    };
    Some(Place { hops, slot })
}

/// Whether a form gives what was kept.
#[inline(always)]
fn is_kept(code: &Code, at: u32) -> bool
    ensures { let term = term_at code.now in
        IsTrue result → out-Term (term at) ≡ layer_of code.now term (node.Local 0 0) }
{
    match code.node(at) {
        Node::Local { hops: 0, slot: 0 } => true,
        _ => false,
    }
}

/// How a form changes the number in a slot, of which the old one is kept.
#[inline(always)]
fn change_at(code: &Code, at: u32, place: Place) -> Option<Change>
    ensures { IfSome result (λ c. ChangesNumber code.now at place.hops place.slot c.operator c.amount) }
{
    let Node::SetLocal {
        hops,
        slot,
        constant: false,
        value,
    } = code.node(at)
    else {
        return None;
    };
    if hops != place.hops || slot != place.slot {
        return None;
    }
    let Node::Binary {
        operator,
        left,
        right,
    } = code.node(value)
    else {
        return None;
    };
    if !is_kept(code, left) {
        return None;
    }
    let Node::Int(amount) = code.node(right) else {
        return None;
    };
    Some(Change { operator, amount })
}

/// Gives a slot a number.
#[inline(always)]
fn write_number(scopes: &mut Scopes, scope: u32, slot: u32, number: i64)
    ensures { scopes.new ≡ with_slot scopes.old scope slot (Int number) }
{
    scopes.write(scope, slot, Value::Int(number));
}

/// The slots of such a body are written, once the numbers are known.
#[inline(always)]
fn written(
    scopes: &mut Scopes,
    scope: u32,
    target: u32,
    slot: u32,
    old: i64,
    new: i64,
) -> Incremented
    requires { ¬ (target ≡ scope) }
    ensures { (hops : ℕ) → target ≡ outwards scopes.old hops scope
        → slot_of scopes.old target slot ≡ Some (Int old)
        → IsIncremented result scopes.old scopes.new scope hops slot old new }
{
    write_number(scopes, scope, 0, old);
    let kept = slot_number(scopes, scope, 0, 0);
    if kept.steps == 0 || kept.number != old {
        return Incremented::Failed;
    }
    write_number(scopes, target, slot, new);
    Incremented::Gave(old)
}

/// Such a body is done at once in the scope where it begins, which is its own, or not at all.
#[inline]
pub fn increment_at(code: &Code, scopes: &mut Scopes, scope: u32, at: u32) -> Incremented
    ensures { (store : Owned)
        → let sight = seen store.party store.objects code.now scopes.old scope in
        CameOfBody result sight at scopes.new }
{
    let Node::Seq { start, count } = code.node(at) else {
        return Incremented::Nothing;
    };
    let forms = code.numbers(start, count);
    if forms.len() != 3 {
        return Incremented::Nothing;
    }
    let Some(place) = kept_slot(code, forms[0]) else {
        return Incremented::Nothing;
    };
    let Some(change) = change_at(code, forms[1], place) else {
        return Incremented::Nothing;
    };
    if !is_kept(code, forms[2]) {
        return Incremented::Nothing;
    }
    let target = scopes.outward(scope, place.hops);
    if target == scope {
        return Incremented::Nothing;
    }
    let old = slot_number(scopes, target, 0, place.slot);
    if old.steps == 0 {
        return Incremented::Nothing;
    }
    let amount = Counted {
        number: change.amount,
        steps: 1,
    };
    let new = operated(change.operator, old, amount);
    if new.steps == 0 {
        return Incremented::Nothing;
    }
    written(scopes, scope, target, place.slot, old.number, new.number)
}
