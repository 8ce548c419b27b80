// Calls of the party's own functions.

ghost use Rattle.std.specs.Prelude.{◌≡◌, ◌+◌, ◌<◌, ◌≤◌, ℕ, IfOk, IfSome, None, Some, drop, get_or, length};
ghost use Rattle.js_code.specs.Decoded.{layer_of, no_argument_row, term_at};
ghost use Rattle.js_code.specs.declared.node.ArgumentRow.TheVariants as argument;
ghost use Rattle.js_code.specs.declared.node.Node.TheVariants as node_kind;
ghost use Rattle.js_direct.specs.Direct.{GivesAtOnce, own_object};
ghost use Rattle.js_in_place.specs.Calls.{HasFunction, IsGathered, at_called};
ghost use Rattle.js_in_place.specs.InPlace.{sight_of};
ghost use Rattle.js_in_place.specs.Places.{IsWent, at_form};
ghost use Rattle.js_machine.specs.Closures.{closure_in};
ghost use Rattle.js_machine.specs.Views.{args_on};
ghost use Rattle.js_store.specs.Objects.{object_at};
ghost use Rattle.js_term.specs.declared.term.Term.{out-Term};

use crate::enter::enter;
use crate::here::value_from;
use crate::seat::{How, Seat, Went, came, led, stopped};
use js_code::node::ArgumentRow;
use js_desc::decision::BodyId;
use js_direct::plain::{Plain, as_value};
use js_direct::properties::object_at;
use js_machine::closures::Closure;
use js_machine::frame::Frame;
use js_machine::machine::Machine;
use js_machine_calls::arguments::argument_row;
use js_machine_calls::closures::closure_in;
use js_store::slot::Slot;
use js_store::store::Store;
use js_text::value::Value;
use lava_base::ids::{ObjId, Ref};
use lava_base::memory::OutOfMemory;

/// The home object of a function, if it has one.
#[derive(Clone, Copy)]
struct Home {
    home: Option<Ref>,
}

/// What came of the arguments of a call.
#[derive(Clone, Copy)]
enum Gathered {
    /// So many are on the stack of values, and so many steps are left.
    All(u32, u64),
    /// Not all are given at once, and none is on the stack.
    Nothing,
    /// Memory is wanting.
    Failed,
}

/// The body of an object that can be called, if it is a function of a source.
#[inline]
fn body_at<S: Store>(store: &S, id: ObjId) -> Option<BodyId>
    ensures { IfSome result (λ body. HasFunction (S.objects store.now) id.0 body) }
{
    if id.0 >= store.count() || !store.marks(id).callable {
        return None;
    }
    match store.slot(id) {
        Slot::Closure { body, .. } => Some(*body),
        _ => None,
    }
}

/// What an object keeps, if it is a function of a source.
#[inline]
fn closure_of<S: Store>(store: &S, id: ObjId) -> Result<Option<Closure>, OutOfMemory>
    requires { id.0 < length (S.objects store.now) }
    ensures { let slot = (object_at (S.objects store.now) id.0).slot in
        IfOk result (λ closure. closure ≡ closure_in slot) }
{
    closure_in(store.slot(id))
}

/// The function that a form gives at once, if it gives one of the party.
#[inline]
fn function_at<S: Store>(machine: &Machine<S>, at: u32) -> Option<ObjId>
    ensures { let sight = sight_of machine.now in
        IfSome result (λ id. GivesAtOnce sight at (own_object sight.me id.0) 1) }
{
    object_at(
        &machine.code,
        &machine.store,
        &machine.scopes,
        machine.standing(),
        at,
    )
}

/// The arguments of a call come on the stack of values, where each is given at once (ECMA-262, ArgumentListEvaluation).
#[inline(always)]
fn list<S: Store>(machine: &mut Machine<S>, start: u32, count: u32, left: u64) -> Gathered
    ensures { IsGathered result start count left machine.old machine.new }
{
    let Ok(there) = machine.listed(start, count) else {
        return Gathered::Failed;
    };
    let mut left = left;
    for i in 0..there {
        let at = machine.number(start + i);
        let mut given = Plain::Undefined;
        let price = u64::from(value_from(machine, at, &mut given));
        if price == 0 || price > left {
            machine.drop_arguments(i);
            return Gathered::Nothing;
        }
        left -= price;
        let Ok(_) = machine.push(as_value(given)) else {
            return Gathered::Failed;
        };
    }
    Gathered::All(there, left)
}

/// The body of a function begins with so many arguments, which are on the stack of values.
#[inline(always)]
fn enter_body<S: Store>(
    machine: &mut Machine<S>,
    seat: &mut Seat,
    id: ObjId,
    body: BodyId,
    closure: Closure,
    count: u32,
    left: u64,
) -> Went
    ensures { let keeps = (object_at machine.old.objects id.0).slot in
        let args = args_on count machine.old.values in
        let below = record machine.old { values = drop count machine.old.values } in
        HasFunction machine.old.objects id.0 body → closure_in keeps ≡ Some closure
        → IsWent (at_called id.0 args below) (left + 1) below machine.new seat.new result }
{
    let function = machine.own(id.0);
    let Ok(_) = machine.push_frame(Frame::Given) else {
        return came(How::Failed, left);
    };
    let Ok(mode) = enter(machine, function, body, closure, count) else {
        return came(How::Failed, left);
    };
    led(seat, mode, left)
}

/// The arguments of a call come on the stack of values, and the body of the function begins; else the call is not begun.
#[inline(always)]
fn call_with<S: Store>(
    machine: &mut Machine<S>,
    seat: &mut Seat,
    at: u32,
    start: u32,
    count: u32,
    id: ObjId,
    body: BodyId,
    closure: Closure,
    left: u64,
) -> Went
    requires { 3 ≤ left }
    ensures { (callee arguments : ℕ) → let term = term_at machine.old.code in
        let code = machine.old.code in
        out-Term (term at) ≡ layer_of code term (node_kind.Call callee arguments)
        → get_or code.arguments arguments no_argument_row ≡ argument.Listed start count
        → GivesAtOnce (sight_of machine.old) callee (own_object machine.old.me id.0) 1
        → HasFunction machine.old.objects id.0 body
        → closure_in (object_at machine.old.objects id.0).slot ≡ Some closure
        → IsWent (at_form at machine.old) left machine.old machine.new seat.new result }
{
    match list(machine, start, count, left - 3) {
        Gathered::All(there, rest) => enter_body(machine, seat, id, body, closure, there, rest),
        Gathered::Nothing => stopped(seat, at, left),
        Gathered::Failed => came(How::Failed, left),
    }
}

/// The home of an object that is a function of a source and took nothing from the body that made it.
#[inline(always)]
fn plain_home<S: Store>(store: &S, id: ObjId) -> Option<Home>
    requires { id.0 < length (S.objects store.now) }
    ensures { IfSome result (λ h. closure_in (object_at (S.objects store.now) id.0).slot
        ≡ Some (record { home = h.home; lexical = None })) }
{
    match store.slot(id) {
        Slot::Closure {
            home,
            lexical: None,
            ..
        } => Some(Home { home: *home }),
        _ => None,
    }
}

/// A call of a function that took something from the body that made it.
#[inline(never)]
fn call_arrow<S: Store>(
    machine: &mut Machine<S>,
    seat: &mut Seat,
    at: u32,
    start: u32,
    count: u32,
    id: ObjId,
    body: BodyId,
    left: u64,
) -> Went
    requires left { 3 ≤ left }
    requires there { id.0 < length machine.old.objects }
    ensures { (callee arguments : ℕ) → let term = term_at machine.old.code in
        let code = machine.old.code in
        out-Term (term at) ≡ layer_of code term (node_kind.Call callee arguments)
        → get_or code.arguments arguments no_argument_row ≡ argument.Listed start count
        → GivesAtOnce (sight_of machine.old) callee (own_object machine.old.me id.0) 1
        → HasFunction machine.old.objects id.0 body
        → IsWent (at_form at machine.old) left machine.old machine.new seat.new result }
{
    let Ok(found) = closure_of(&machine.store, id) else {
        return came(How::Failed, left);
    };
    let Some(closure) = found else {
        return stopped(seat, at, left);
    };
    call_with(machine, seat, at, start, count, id, body, closure, left)
}

/// A call of a function of the party begins its body, where the function and all arguments are given at once (ECMA-262, EvaluateCall).
#[inline(never)]
pub fn do_call<S: Store>(
    machine: &mut Machine<S>,
    seat: &mut Seat,
    at: u32,
    callee: u32,
    arguments: u32,
    left: u64,
) -> Went
    ensures { let term = term_at machine.old.code in
        let row = node_kind.Call callee arguments in
        out-Term (term at) ≡ layer_of machine.old.code term row
        → IsWent (at_form at machine.old) left machine.old machine.new seat.new result }
{
    if left < 3 {
        return stopped(seat, at, left);
    }
    let ArgumentRow::Listed { start, count } = argument_row(machine, arguments) else {
        return stopped(seat, at, left);
    };
    let Some(id) = function_at(machine, callee) else {
        return stopped(seat, at, left);
    };
    let Some(body) = body_at(&machine.store, id) else {
        return stopped(seat, at, left);
    };
    let Some(plain) = plain_home(&machine.store, id) else {
        return call_arrow(machine, seat, at, start, count, id, body, left);
    };
    let closure = Closure {
        home: plain.home,
        lexical: None,
    };
    call_with(machine, seat, at, start, count, id, body, closure, left)
}
