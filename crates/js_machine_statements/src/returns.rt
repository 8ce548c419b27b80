// How bodies end.

ghost use Rattle.std.specs.Prelude.{◌≡◌, IfOk, true};
ghost use Rattle.js_text.specs.Naming.{naming_of};
ghost use Rattle.js_text.specs.declared.value.Value.TheVariants as value_kind;
ghost use Rattle.js_machine.specs.js_run.Bodies.{built, constructed, derived_constructed, derived_this};
ghost use Rattle.js_machine.specs.Opened.{returned_value};
ghost use Rattle.js_machine.specs.Steps.{IsDelivered, LeadsTo};
ghost use Rattle.js_machine.specs.Views.{is_completion, party_of, top, values_without};
ghost use Rattle.js_machine.specs.declared.frame.Frame.TheVariants as frame_kind;

use js_desc::fault::FaultText;
use js_machine::frame::Mode;
use js_machine::machine::Machine;
use js_store::store::Store;
use js_text::value::Value;
use lava_base::memory::OutOfMemory;

/// The value with which a body ends that doesn't throw. A jump does not leave it.
fn returned<S: Store>(machine: &mut Machine<S>, mode: Mode) -> Value
    ensures value { result ≡ returned_value mode (top machine.old.values) }
    ensures rest { let rest = values_without mode machine.old.values in
        machine.new ≡ record machine.old { values = rest } }
{
    match mode {
        Mode::Return => machine.take(),
        Mode::Value | Mode::Throw => {
            machine.discard(1);
            Value::Undefined
        }
        _ => Value::Undefined,
    }
}

/// What a constructor gives: an object that it returns, and else the one that was made for it (ECMA-262, "ECMAScript Function Objects", [[Construct]]).
fn constructed<S: Store>(
    machine: &mut Machine<S>,
    object: u32,
    value: Value,
) -> Result<Mode, OutOfMemory>
    ensures { let names = naming_of machine.old.me in
        let this = value_kind.Ref (names.own object) in
        IfOk result (LeadsTo (λ a. constructed names a.shared this value (party_of a machine.old))
        machine.old machine.new) }
{
    if let Value::Ref(returned) = value {
        return machine.give(Value::Ref(returned));
    }
    let this = machine.own(object);
    machine.give(Value::Ref(this))
}

/// What the constructor of a class with a parent gives: an object that it returns, and `this` where it returns undefined.
fn derived_constructed<S: Store>(
    machine: &mut Machine<S>,
    this: Option<Value>,
    value: Value,
) -> Result<Mode, OutOfMemory>
    ensures { let names = naming_of machine.old.me in
        IfOk result (LeadsTo (λ a. derived_constructed names a.shared this value
        (party_of a machine.old)) machine.old machine.new) }
{
    match value {
        Value::Ref(returned) => machine.give(Value::Ref(returned)),
        Value::Undefined => derived_this(machine, this),
        _ => machine.fault(FaultText::NotAnObject),
    }
}

/// `this`, which a class with a parent has after its `super` call.
fn derived_this<S: Store>(
    machine: &mut Machine<S>,
    this: Option<Value>,
) -> Result<Mode, OutOfMemory>
    ensures { let names = naming_of machine.old.me in
        IfOk result (LeadsTo (λ a. derived_this names a.shared this (party_of a machine.old))
        machine.old machine.new) }
{
    match this {
        None => machine.fault(FaultText::NoThis),
        Some(value) => machine.give(value),
    }
}

/// What a constructor of the common part gives is the object that it returns.
fn built<S: Store>(machine: &mut Machine<S>, value: Value) -> Result<Mode, OutOfMemory>
    ensures { let names = naming_of machine.old.me in
        IfOk result (LeadsTo (λ a. built names a.shared value (party_of a machine.old))
        machine.old machine.new) }
{
    match value {
        Value::Ref(returned) => machine.give(Value::Ref(returned)),
        _ => machine.fault(FaultText::NotAnObject),
    }
}

/// The body of a call ends (ECMA-262, OrdinaryCallEvaluateBody).
pub fn deliver_called<S: Store>(machine: &mut Machine<S>, mode: Mode) -> Result<Mode, OutOfMemory>
    requires { is_completion mode ≡ true }
    ensures { IfOk result (IsDelivered frame_kind.Called mode machine.old machine.new) }
{
    machine.close_body();
    if mode.is_throw() {
        return Ok(mode);
    }
    let value = returned(machine, mode);
    machine.give(value)
}

/// The body of a constructor ends, for which the party made an object.
pub fn deliver_constructed<S: Store>(
    machine: &mut Machine<S>,
    object: u32,
    mode: Mode,
) -> Result<Mode, OutOfMemory>
    requires { is_completion mode ≡ true }
    ensures { IfOk result (IsDelivered (frame_kind.Constructed object) mode machine.old machine.new) }
{
    machine.close_body();
    if mode.is_throw() {
        return Ok(mode);
    }
    let value = returned(machine, mode);
    constructed(machine, object, value)
}

/// The body of the constructor of a class with a parent ends.
pub fn deliver_derived<S: Store>(machine: &mut Machine<S>, mode: Mode) -> Result<Mode, OutOfMemory>
    requires { is_completion mode ≡ true }
    ensures { IfOk result (IsDelivered frame_kind.Derived mode machine.old machine.new) }
{
    let this = machine.this_value()?;
    machine.close_body();
    if mode.is_throw() {
        return Ok(mode);
    }
    let value = returned(machine, mode);
    derived_constructed(machine, this, value)
}

/// The body of a constructor of the common part ends.
pub fn deliver_built<S: Store>(machine: &mut Machine<S>, mode: Mode) -> Result<Mode, OutOfMemory>
    requires { is_completion mode ≡ true }
    ensures { IfOk result (IsDelivered frame_kind.Built mode machine.old machine.new) }
{
    machine.close_body();
    if mode.is_throw() {
        return Ok(mode);
    }
    let value = returned(machine, mode);
    built(machine, value)
}
