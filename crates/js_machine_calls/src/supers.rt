// Properties, methods and calls of `super`.

ghost use Rattle.std.specs.Prelude.{◌≡◌, ◌+◌, IfOk, OnOk, Some, drop};
ghost use Rattle.js_code.specs.Decoded.{arguments_at, term_at};
ghost use Rattle.js_text.specs.Naming.{naming_of};
ghost use Rattle.js_machine.specs.js_run.Acts.{give, with_value};
ghost use Rattle.js_machine.specs.js_run.Asking.{calls};
ghost use Rattle.js_machine.specs.js_run.Calls.{binds_this, constructs_by, super_constructs, super_news};
ghost use Rattle.js_machine.specs.js_run.Parties.{first_body, replaces_body, running};
ghost use Rattle.js_machine.specs.js_run.Properties.{with_this};
ghost use Rattle.js_machine.specs.js_run.Rows.{call_super_key, super_key};
ghost use Rattle.js_machine.specs.Steps.{LeadsTo};
ghost use Rattle.js_machine.specs.Supers.{parent_of};
ghost use Rattle.js_machine.specs.Views.{applied, args_on, party_of, prototype_in};
ghost use Rattle.js_machine.specs.declared.frame.Purpose.TheVariants as purpose_kind;

use crate::callees::call_value;
use js_desc::ask::Ask;
use js_desc::fault::FaultText;
use js_machine::asked::Answer;
use js_machine::body::Body;
use js_machine::decisions::object_of_value;
use js_machine::frame::{Frame, Mode};
use js_machine::machine::Machine;
use js_store::store::Store;
use js_text::copy::copy_value;
use js_text::value::Value;
use lava_base::ids::Ref;
use lava_base::list::List;
use lava_base::memory::OutOfMemory;

/// What constructs in a `super` call, which is nothing where there is no prototype.
pub fn parent_of(parent: Option<Ref>) -> Value
    ensures { result ≡ parent_of parent }
{
    match parent {
        None => Value::Null,
        Some(parent) => Value::Ref(parent),
    }
}

// PROPERTIES
/// The key of a property of `super` has its value: the home object is asked for its prototype (ECMA-262, MakeSuperPropertyReference).
pub fn super_key_comes<S: Store>(machine: &mut Machine<S>, key: Value) -> Result<Mode, OutOfMemory>
    ensures { IfOk result (LeadsTo (λ a. super_key (naming_of machine.old.me) a.shared key
        (party_of a machine.old)) machine.old machine.new) }
{
    match machine.home() {
        None => machine.fault(FaultText::CannotConvert),
        Some(home) => {
            machine.push(key)?;
            machine.ask(home, Ask::GetPrototypeOf, Frame::SuperHome)
        }
    }
}

// METHODS
/// The key of a method of `super` has its value: the home object is asked for its prototype (ECMA-262, MakeSuperPropertyReference).
pub fn super_method_key_comes<S: Store>(
    machine: &mut Machine<S>,
    arguments: u32,
    key: Value,
) -> Result<Mode, OutOfMemory>
    ensures { let arguments = arguments_at machine.old.code (term_at machine.old.code) arguments in
        IfOk result (LeadsTo (λ a. call_super_key (naming_of machine.old.me) a.shared arguments key
        (party_of a machine.old)) machine.old machine.new) }
{
    match machine.home() {
        None => machine.fault(FaultText::CannotConvert),
        Some(home) => {
            machine.push(key)?;
            machine.ask(
                home,
                Ask::GetPrototypeOf,
                Frame::CallSuperHome { arguments },
            )
        }
    }
}

/// A function is called with the `this` of the body that runs.
fn call_on_this<S: Store>(
    machine: &mut Machine<S>,
    callee: Value,
    args: List<Value>,
) -> Result<Mode, OutOfMemory>
    ensures { let names = naming_of machine.old.me in
        IfOk result (LeadsTo (λ a. with_this names (party_of a machine.old)
        (λ this p. calls names a.shared callee this args p (with_value give)))
        machine.old machine.new) }
{
    match machine.this_value()? {
        None => machine.fault(FaultText::NoThis),
        Some(this) => call_value(machine, callee, this, args),
    }
}

/// The method of `super` below so many arguments is called with them.
pub fn apply_super_call<S: Store>(machine: &mut Machine<S>, done: u32) -> Result<Mode, OutOfMemory>
    ensures { let args = args_on done machine.old.values in
        let below = drop done machine.old.values in
        let purpose = purpose_kind.SuperCall in
        let rest = record machine.old { values = drop (done + 1) machine.old.values } in
        IfOk result (LeadsTo (λ a. applied (naming_of machine.old.me) a.shared purpose below args
        (party_of a machine.old)) rest machine.new) }
{
    let args = machine.take_arguments(done)?;
    let callee = machine.take();
    call_on_this(machine, callee, args)
}

// CONSTRUCTIONS
/// A `super` call: the function that runs is asked for its prototype (ECMA-262, SuperCall).
pub fn begin_super_new<S: Store>(
    machine: &mut Machine<S>,
    arguments: u32,
) -> Result<Mode, OutOfMemory>
    ensures { let names = naming_of machine.old.me in
        let arguments = arguments_at machine.old.code (term_at machine.old.code) arguments in
        IfOk result (LeadsTo (λ a. super_news names a.shared arguments (party_of a machine.old))
        machine.old machine.new) }
{
    match machine.function() {
        None => machine.fault(FaultText::NotAConstructor),
        Some(function) => {
            machine.ask(
                function,
                Ask::GetPrototypeOf,
                Frame::SuperParent { arguments },
            )
        }
    }
}

/// An object constructs with a new target, where it is a constructor, and a frame waits for what is to be `this`.
fn parent_constructs<S: Store>(
    machine: &mut Machine<S>,
    parent: Ref,
    target: Ref,
    args: List<Value>,
) -> Result<Mode, OutOfMemory>
    ensures { let names = naming_of machine.old.me in
        let callee = parent_of (Some parent) in
        IfOk result (LeadsTo (λ a. constructs_by names a.shared callee target args
        (party_of a machine.old) (λ v p. binds_this names a.shared (running p).this v p))
        machine.old machine.new) }
{
    if machine.marks_of(parent).constructor {
        let ask = Ask::Construct {
            new_target: target,
            args,
        };
        return machine.ask(parent, ask, Frame::BindThis);
    }
    machine.fault(FaultText::NotAConstructor)
}

/// A value constructs with a new target.
fn construct_by<S: Store>(
    machine: &mut Machine<S>,
    parent: Value,
    target: Ref,
    args: List<Value>,
) -> Result<Mode, OutOfMemory>
    ensures { let names = naming_of machine.old.me in
        IfOk result (LeadsTo (λ a. constructs_by names a.shared parent target args
        (party_of a machine.old) (λ v p. binds_this names a.shared (running p).this v p))
        machine.old machine.new) }
{
    match object_of_value(&parent) {
        Some(parent) => parent_constructs(machine, parent, target, args),
        None => machine.fault(FaultText::NotAConstructor),
    }
}

/// The parent constructs with the new target of the body that runs.
fn super_construct<S: Store>(
    machine: &mut Machine<S>,
    parent: Value,
    args: List<Value>,
) -> Result<Mode, OutOfMemory>
    ensures { let names = naming_of machine.old.me in
        let target = (first_body machine.old.bodies).new_target in
        IfOk result (LeadsTo (λ a. super_constructs names a.shared target parent args
        (party_of a machine.old)) machine.old machine.new) }
{
    match machine.target_of_body() {
        None => machine.fault(FaultText::NotAConstructor),
        Some(target) => construct_by(machine, parent, target, args),
    }
}

/// The parent below so many arguments constructs with them.
pub fn apply_super_new<S: Store>(machine: &mut Machine<S>, done: u32) -> Result<Mode, OutOfMemory>
    ensures { let args = args_on done machine.old.values in
        let below = drop done machine.old.values in
        let purpose = purpose_kind.SuperNew in
        let rest = record machine.old { values = drop (done + 1) machine.old.values } in
        IfOk result (LeadsTo (λ a. applied (naming_of machine.old.me) a.shared purpose below args
        (party_of a machine.old)) rest machine.new) }
{
    let args = machine.take_arguments(done)?;
    let parent = machine.take();
    super_construct(machine, parent, args)
}

/// The body that runs has its `this` (ECMA-262, BindThisValue).
#[tactic(auto, using(js_machine::proofs::Reversed::reverse_push))]
fn set_this<S: Store>(machine: &mut Machine<S>, value: Value) -> Result<(), OutOfMemory>
    ensures { let body = record (first_body machine.old.bodies) { this = Some value } in
        let bodies = replaces_body body machine.old.bodies in
        OnOk result (machine.new ≡ record machine.old { bodies = bodies }) }
{
    if let Some(body) = machine.bodies.pop() {
        let this = Some(value);
        machine.bodies.push(Body { this, ..body })?;
    }
    Ok(())
}

/// What a `super` call constructs is `this`, which is given; it is so only once (ECMA-262, BindThisValue).
pub fn bind_this<S: Store>(machine: &mut Machine<S>, value: Value) -> Result<Mode, OutOfMemory>
    ensures { let names = naming_of machine.old.me in
        let this = (first_body machine.old.bodies).this in
        IfOk result (LeadsTo (λ a. binds_this names a.shared this value (party_of a machine.old))
        machine.old machine.new) }
{
    match machine.this_value()? {
        Some(_) => machine.fault(FaultText::ThisTwice),
        None => {
            set_this(machine, copy_value(&value)?)?;
            machine.give(value)
        }
    }
}

// ANSWERS
/// The answer, where it is a prototype.
pub fn prototype_in<S: Store>(machine: &Machine<S>) -> Option<Option<Ref>>
    ensures { result ≡ prototype_in machine.now.answer }
{
    match &machine.answer {
        Answer::Proto(above) => Some(*above),
        _ => None,
    }
}
