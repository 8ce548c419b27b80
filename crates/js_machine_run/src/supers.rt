// Properties, methods and calls of `super`.

ghost use Rattle.std.specs.Prelude.{IfOk, Some};
ghost use Rattle.js_code.specs.Decoded.{arguments_at, term_at};
ghost use Rattle.js_text.specs.Naming.{naming_of};
ghost use Rattle.js_desc.specs.declared.reply.Reply.TheVariants as reply_kind;
ghost use Rattle.js_machine.specs.js_run.Properties.{get_above};
ghost use Rattle.js_machine.specs.Conversions.{super_frame};
ghost use Rattle.js_machine.specs.Replies.{deed_replied};
ghost use Rattle.js_machine.specs.Steps.{IsDelivered, LeadsTo, over, under};
ghost use Rattle.js_machine.specs.Supers.{parent_of};
ghost use Rattle.js_machine.specs.Views.{party_of, prototype_in, super_method, super_parent};
ghost use Rattle.js_machine.specs.declared.frame.Frame.TheVariants as frame_kind;
ghost use Rattle.js_machine.specs.declared.frame.Mode.TheVariants as mode_kind;

use crate::arguments::begin_arguments;
use js_desc::fault::FaultText;
use js_in_place::js_machine_calls::supers::{parent_of, prototype_in};
use js_machine::asked::Answer;
use js_machine::frame::{Frame, KeyGoal, Mode, Purpose};
use js_machine::machine::Machine;
use js_machine_operators::conversions::{key_at_once, with_key_of};
use js_store::store::Store;
use js_text::value::Value;
use lava_base::ids::Ref;
use lava_base::memory::OutOfMemory;

/// The key of a property of `super` is an object.
fn convert_to_super<S: Store>(
    machine: &mut Machine<S>,
    key: Value,
    above: Ref,
    call: Option<u32>,
) -> Result<Mode, OutOfMemory>
    ensures { let frame = super_frame call in
        IfOk result (LeadsTo (λ a. get_above (naming_of machine.old.me) a.shared key (Some above)
        (party_of a machine.old) (over frame machine.old a)) machine.old machine.new) }
{
    machine.push(Value::Ref(above))?;
    with_key_of(machine, key, KeyGoal::Super { call })
}

/// A property of the object where `super` looks is read with `this` as the receiver, and a frame waits for it.
fn get_from<S: Store>(
    machine: &mut Machine<S>,
    key: Value,
    above: Ref,
    call: Option<u32>,
) -> Result<Mode, OutOfMemory>
    ensures { let frame = super_frame call in
        IfOk result (LeadsTo (λ a. get_above (naming_of machine.old.me) a.shared key (Some above)
        (party_of a machine.old) (over frame machine.old a)) machine.old machine.new) }
{
    match key_at_once(machine.alloc, &key)? {
        Some(key) => machine.ask_super(key, above, call),
        None => convert_to_super(machine, key, above, call),
    }
}

/// A property of what stands above the home object is read, and a frame waits for it (ECMA-262, "Super References", GetValue).
fn get_above<S: Store>(
    machine: &mut Machine<S>,
    key: Value,
    above: Option<Ref>,
    call: Option<u32>,
) -> Result<Mode, OutOfMemory>
    ensures { let frame = super_frame call in
        IfOk result (LeadsTo (λ a. get_above (naming_of machine.old.me) a.shared key above
        (party_of a machine.old) (over frame machine.old a)) machine.old machine.new) }
{
    match above {
        None => machine.fault(FaultText::CannotConvert),
        Some(above) => get_from(machine, key, above, call),
    }
}

/// The object where `super` looks comes to the frame that has the key of a property.
fn super_home_comes<S: Store>(
    machine: &mut Machine<S>,
    above: Option<Ref>,
) -> Result<Mode, OutOfMemory>
    ensures { let reply = reply_kind.Proto above in
        IfOk result (LeadsTo (deed_replied frame_kind.SuperHome reply machine.old)
        (under frame_kind.SuperHome machine.old) machine.new) }
{
    let key = machine.take();
    get_above(machine, key, above, None)
}

/// The object where `super` looks comes to the frame that has the key of a method.
fn super_method_home_comes<S: Store>(
    machine: &mut Machine<S>,
    arguments: u32,
    above: Option<Ref>,
) -> Result<Mode, OutOfMemory>
    ensures { let frame = frame_kind.CallSuperHome arguments in
        let reply = reply_kind.Proto above in
        IfOk result (LeadsTo (deed_replied frame reply machine.old) (under frame machine.old)
        machine.new) }
{
    let key = machine.take();
    get_above(machine, key, above, Some(arguments))
}

/// A method of `super` has its value, and its arguments begin (ECMA-262, EvaluateCall, of a super reference).
pub fn super_method_comes<S: Store>(
    machine: &mut Machine<S>,
    arguments: u32,
    callee: Value,
) -> Result<Mode, OutOfMemory>
    ensures { let arguments = arguments_at machine.old.code (term_at machine.old.code) arguments in
        IfOk result (LeadsTo (λ a. super_method (naming_of machine.old.me) a.shared arguments callee
        (party_of a machine.old)) machine.old machine.new) }
{
    machine.push(callee)?;
    begin_arguments(machine, Purpose::SuperCall, arguments)
}

/// What constructs in a `super` call is known, and its arguments begin.
fn super_parent_comes<S: Store>(
    machine: &mut Machine<S>,
    arguments: u32,
    parent: Option<Ref>,
) -> Result<Mode, OutOfMemory>
    ensures { let arguments = arguments_at machine.old.code (term_at machine.old.code) arguments in
        IfOk result (LeadsTo (λ a. super_parent (naming_of machine.old.me) a.shared arguments parent
        (party_of a machine.old)) machine.old machine.new) }
{
    machine.push(parent_of(parent))?;
    begin_arguments(machine, Purpose::SuperNew, arguments)
}

/// A frame that waits for a prototype goes on with it.
fn go_on_prototype<S: Store>(
    machine: &mut Machine<S>,
    frame: Frame,
    above: Option<Ref>,
) -> Result<Mode, OutOfMemory>
    ensures { let reply = reply_kind.Proto above in
        IfOk result (LeadsTo (deed_replied frame reply machine.old)
        (under frame machine.old) machine.new) }
{
    match frame {
        Frame::SuperHome => super_home_comes(machine, above),
        Frame::CallSuperHome { arguments } => super_method_home_comes(machine, arguments, above),
        Frame::SuperParent { arguments } => super_parent_comes(machine, arguments, above),
        Frame::Inherits => machine.deliver_inherits(above),
        // No other frame waits for one.
        _ => Err(OutOfMemory),
    }
}

/// An answer comes to a frame that waits for a prototype.
pub fn deliver_prototype<S: Store>(
    machine: &mut Machine<S>,
    frame: Frame,
) -> Result<Mode, OutOfMemory>
    ensures { IfOk result (IsDelivered frame mode_kind.Answer machine.old machine.new) }
{
    match prototype_in(machine) {
        Some(above) => go_on_prototype(machine, frame, above),
        // Another answer does not come: each frame that waits for one asks for it.
        None => Err(OutOfMemory),
    }
}
