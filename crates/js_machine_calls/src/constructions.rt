// Objects that are constructed: the prototype is asked for, and then the body of the constructor runs.

ghost use Rattle.std.specs.Prelude.{◌≡◌, [], IfOk, OnOk, Some, drop, length};
ghost use Rattle.js_text.specs.Naming.{naming_of};
ghost use Rattle.js_machine.specs.js_run.Bodies.{base_constructs};
ghost use Rattle.js_machine.specs.js_run.Functions.{ordinary};
ghost use Rattle.js_machine.specs.Bodies.{running_of};
ghost use Rattle.js_machine.specs.Constructions.{constructing_body, constructs_made, prototype_given};
ghost use Rattle.js_machine.specs.Made.{row_of, with_object};
ghost use Rattle.js_machine.specs.Opened.{template_of};
ghost use Rattle.js_machine.specs.Steps.{LeadsTo, Wakes};
ghost use Rattle.js_machine.specs.Views.{args_on, party_of};
ghost use Rattle.js_machine.specs.declared.asked.Wait.TheVariants as wait_kind;

use js_desc::ask::Ask;
use js_desc::reply::Reply;
use js_machine::asked::{Construction, Wait};
use js_machine::body::Body;
use js_machine::frame::{Frame, Mode};
use js_machine::js_run::intrinsics::OBJECT_PROTOTYPE;
use js_machine::machine::Machine;
use js_store::slot::Slot;
use js_store::store::{PLAIN_MARKS, Store};
use js_text::value::Value;
use lava_base::ids::{CommonId, ObjId, Ref};
use lava_base::list::List;
use lava_base::memory::OutOfMemory;

/// The prototype of what is constructed, where this value came for it (ECMA-262, GetPrototypeFromConstructor).
fn prototype_given(value: &Value) -> Ref
    ensures { result ≡ prototype_given value.now }
{
    match value {
        Value::Ref(prototype) => *prototype,
        _ => Ref::Common(CommonId(OBJECT_PROTOTYPE)),
    }
}

/// The new target is asked for the prototype, and the construction waits (ECMA-262, OrdinaryCreateFromConstructor).
pub fn construct_base<S: Store>(
    machine: &mut Machine<S>,
    construction: Construction,
    count: u32,
) -> Result<Mode, OutOfMemory>
    ensures { let names = naming_of machine.old.me in
        let k = construction in
        let template = template_of machine.old k.at in
        let args = args_on count machine.old.values in
        let below = record machine.old { values = drop count machine.old.values } in
        IfOk result (LeadsTo (λ a. base_constructs names a.shared k.function template k.outer
        k.home k.target args (party_of a machine.old)) below machine.new) }
{
    let args = machine.take_arguments(count)?;
    let key = machine.keys.prototype()?;
    let target = construction.target;
    let receiver = Value::Ref(target);
    let wait = Wait::Construct { construction, args };
    machine.wait_for(target, Ask::Get { key, receiver }, wait)
}

/// Makes an object with this prototype (ECMA-262, OrdinaryObjectCreate).
fn make_instance<S: Store>(machine: &mut Machine<S>, prototype: Ref) -> Result<ObjId, OutOfMemory>
    ensures id { IfOk result (λ id. id.0 ≡ length machine.old.objects) }
    ensures made { let object = ordinary (Some prototype) [] in
        OnOk result (machine.new ≡ with_object object machine.old) }
{
    machine
        .store
        .make(Some(prototype), PLAIN_MARKS, Slot::Plain)
}

/// The body of a constructor, which has yet to stand in a scope.
fn constructing_body<S: Store>(machine: &Machine<S>, construction: Construction, this: Ref) -> Body
    ensures { let kind = (row_of machine.now construction.at).kind in
        running_of 0 (Some result) ≡ constructing_body 0 kind construction this }
{
    Body {
        kind: machine.template(construction.at).kind,
        back: 0,
        this: Some(Value::Ref(this)),
        new_target: Some(construction.target),
        function: Some(construction.function),
        home: construction.home,
    }
}

/// The prototype has come: an object is made, and the body of the constructor runs (ECMA-262, "ECMAScript Function Objects", [[Construct]]).
fn construct_made<S: Store>(
    machine: &mut Machine<S>,
    construction: Construction,
    args: &List<Value>,
    prototype: Value,
) -> Result<Mode, OutOfMemory>
    ensures { let names = naming_of machine.old.me in
        let template = template_of machine.old construction.at in
        IfOk result (LeadsTo (λ a. constructs_made names a.shared template construction args.now
        prototype (party_of a machine.old)) machine.old machine.new) }
{
    if args.len() > u32::MAX as usize {
        return Err(OutOfMemory);
    }
    let count = args.len() as u32;
    let id = make_instance(machine, prototype_given(&prototype))?;
    machine.push_arguments(args)?;
    let this = machine.own(id.0);
    let body = constructing_body(machine, construction, this);
    let frame = Frame::Constructed { object: id.0 };
    machine.run_body(construction.at, construction.outer, count, body, frame)
}

/// A construction goes on with the prototype; what is no value passes.
pub fn resume_construct<S: Store>(
    machine: &mut Machine<S>,
    construction: Construction,
    args: List<Value>,
    reply: Reply,
) -> Result<Mode, OutOfMemory>
    ensures { let wait = wait_kind.Construct construction args in
        IfOk result (Wakes wait reply machine.old machine.new) }
{
    match reply {
        Reply::Value(value) => construct_made(machine, construction, &args, value),
        other => machine.reply(other),
    }
}
