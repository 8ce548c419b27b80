// Whether a value inherits from a function.

ghost use Rattle.std.specs.Prelude.{◌≡◌, IfOk, Some, length};
ghost use Rattle.js_text.specs.Naming.{naming_of};
ghost use Rattle.js_text.specs.declared.value.Value.TheVariants as value_kind;
ghost use Rattle.js_machine.specs.js_run.Acts.{give};
ghost use Rattle.js_machine.specs.js_run.Operators.{has_instance, has_instance_by, prototype_inherited};
ghost use Rattle.js_machine.specs.Instances.{bound_target, bound_target_in, unbound_in};
ghost use Rattle.js_machine.specs.Steps.{LeadsTo, deed_with, under};
ghost use Rattle.js_machine.specs.Views.{party_of};
ghost use Rattle.js_machine.specs.declared.frame.Frame.TheVariants as frame_kind;

use js_desc::ask::Ask;
use js_desc::fault::FaultText;
use js_machine::decisions::object_of_value;
use js_machine::frame::{Frame, Mode};
use js_machine::machine::Machine;
use js_ordinary::target::{find_target, slot};
use js_store::slot::Slot;
use js_store::store::Store;
use js_text::value::Value;
use lava_base::ids::Ref;
use lava_base::memory::OutOfMemory;

/// The function that a bound function stands for.
fn bound_target(slot: &Slot) -> Option<Ref>
    ensures { result ≡ bound_target slot.now }
{
    match slot {
        Slot::Bound { target, .. } => Some(*target),
        _ => None,
    }
}

/// The function that an object stands for, where it is a bound function of the party or of the common part.
#[tactic(auto, using(js_machine::proofs::Instance_laws::target_there, js_machine::proofs::Instance_laws::no_target))]
fn target_behind<S: Store>(machine: &Machine<S>, function: Ref) -> Option<Ref>
    ensures { result ≡ bound_target_in machine.now function }
{
    match find_target(&machine.store, &machine.common, function) {
        None => None,
        Some(target) => bound_target(slot(&machine.store, &machine.common, target)),
    }
}

/// The function behind bound ones (ECMA-262, OrdinaryHasInstance, step 2).
fn unbound<S: Store>(machine: &Machine<S>, function: Ref) -> Ref
    ensures { result ≡ unbound_in machine.now (length machine.now.objects) function }
{
    let mut found = function;
    for _i in 0..machine.store.count() {
        match target_behind(machine, found) {
            Some(target) => found = target,
            None => return found,
        }
    }
    found
}

/// What a function has as `prototype` is known (ECMA-262, OrdinaryHasInstance, steps 5 and 6).
#[tactic(auto, using(js_machine::proofs::Instance_laws::inherited_object, js_machine::proofs::Instance_laws::inherited_other))]
fn prototype_inherited<S: Store>(
    machine: &mut Machine<S>,
    object: Ref,
    prototype: Value,
) -> Result<Mode, OutOfMemory>
    ensures { IfOk result (LeadsTo (λ a. prototype_inherited (naming_of machine.old.me) a.shared
        object prototype (party_of a machine.old)) machine.old machine.new) }
{
    match object_of_value(&prototype) {
        Some(prototype) => machine.seek(object, prototype),
        None => machine.fault(FaultText::NotAnObject),
    }
}

/// What a function has as `prototype` comes to the frame that has the object.
pub fn prototype_comes<S: Store>(
    machine: &mut Machine<S>,
    prototype: Value,
) -> Result<Mode, OutOfMemory>
    ensures { let frame = frame_kind.InstanceOf in
        IfOk result (LeadsTo (deed_with frame prototype machine.old)
        (under frame machine.old) machine.new) }
{
    let object = machine.take_object();
    prototype_inherited(machine, object, prototype)
}

/// A function that is not bound is asked for its `prototype`, from which an object may inherit.
pub fn get_prototype<S: Store>(
    machine: &mut Machine<S>,
    function: Ref,
    object: Ref,
) -> Result<Mode, OutOfMemory>
    ensures { let instance = value_kind.Ref object in
        IfOk result (LeadsTo (λ a. has_instance_by (naming_of machine.old.me) a.shared function
        instance (party_of a machine.old)) machine.old machine.new) }
{
    let key = machine.keys.prototype()?;
    machine.push(Value::Ref(object))?;
    let ask = Ask::Get {
        key,
        receiver: Value::Ref(function),
    };
    machine.ask(function, ask, Frame::InstanceOf)
}

/// Whether a value inherits from a function that is not bound (ECMA-262, OrdinaryHasInstance, steps 3 to 6).
#[tactic(auto, using(js_machine::proofs::Instance_laws::instance_other))]
fn has_instance_by<S: Store>(
    machine: &mut Machine<S>,
    function: Ref,
    value: Value,
) -> Result<Mode, OutOfMemory>
    ensures { IfOk result (LeadsTo (λ a. has_instance_by (naming_of machine.old.me) a.shared
        function value (party_of a machine.old)) machine.old machine.new) }
{
    match object_of_value(&value) {
        Some(object) => get_prototype(machine, function, object),
        None => machine.give(Value::Bool(false)),
    }
}

/// Whether a value inherits from a function (ECMA-262, OrdinaryHasInstance).
pub fn has_instance<S: Store>(
    machine: &mut Machine<S>,
    function: Ref,
    value: Value,
) -> Result<Mode, OutOfMemory>
    ensures { let callee = value_kind.Ref function in
        IfOk result (LeadsTo (λ a. has_instance (naming_of machine.old.me) a.shared value callee
        (party_of a machine.old)) machine.old machine.new) }
{
    let function = unbound(machine, function);
    has_instance_by(machine, function, value)
}
