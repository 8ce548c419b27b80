// The slots of scopes.

ghost use Rattle.std.specs.Prelude.{is_some, ◌≡◌, IfOk, None};
ghost use Rattle.js_text.specs.Naming.{naming_of};
ghost use Rattle.js_machine.specs.js_run.Acts.{give};
ghost use Rattle.js_machine.specs.js_run.Properties.{get_slot, init_slot, set_slot};
ghost use Rattle.js_state.specs.Scopes.{outwards, slot_of};
ghost use Rattle.js_machine.specs.Bodies.{scope_of, stood_in};
ghost use Rattle.js_machine.specs.Steps.{LeadsTo};
ghost use Rattle.js_machine.specs.Views.{party_of, with_local};

use js_desc::fault::FaultText;
use js_machine::frame::Mode;
use js_machine::machine::Machine;
use js_store::store::Store;
use js_text::copy::copy_value;
use js_text::value::Value;
use lava_base::memory::OutOfMemory;

/// The body that runs stands in another scope.
#[inline]
#[tactic(auto, using(js_machine::proofs::Standing::moved, js_machine::proofs::Standing::unmoved, js_machine::proofs::Standing::still_grounded))]
pub fn stand_in<S: Store>(machine: &mut Machine<S>, scope: u32)
    ensures { machine.new ≡ record machine.old { bodies = stood_in scope machine.old.bodies } }
{
    if machine.bodies.len() != 0 {
        machine.scope = scope;
    }
}

/// The scope that is so many hops outwards.
#[inline]
pub fn reached<S: Store>(machine: &Machine<S>, hops: u32) -> u32
    ensures { result ≡ outwards machine.now.scopes hops (scope_of machine.now.bodies) }
{
    machine.scopes.outward(machine.standing(), hops)
}

/// The value of a slot so many hops outwards, if it is initialised.
#[inline]
pub fn local<S: Store>(
    machine: &Machine<S>,
    hops: u32,
    slot: u32,
) -> Result<Option<Value>, OutOfMemory>
    ensures { let scope = outwards machine.now.scopes hops (scope_of machine.now.bodies) in
        IfOk result (λ v. v ≡ slot_of machine.now.scopes scope slot) }
{
    match machine.scopes.value(reached(machine, hops), slot) {
        Some(value) => Ok(Some(copy_value(value)?)),
        None => Ok(None),
    }
}

/// Whether a slot so many hops outwards is initialised.
pub fn has_local<S: Store>(machine: &Machine<S>, hops: u32, slot: u32) -> bool
    ensures { let scope = outwards machine.now.scopes hops (scope_of machine.now.bodies) in
        result ≡ is_some (slot_of machine.now.scopes scope slot) }
{
    machine.scopes.value(reached(machine, hops), slot).is_some()
}

/// Gives a slot so many hops outwards a value.
pub fn write_local<S: Store>(machine: &mut Machine<S>, hops: u32, slot: u32, value: Value)
    ensures { machine.new ≡ record machine.old { scopes = with_local machine.old hops slot value } }
{
    let scope = reached(machine, hops);
    machine.scopes.write(scope, slot, value);
}

/// Gives the value of a slot (ECMA-262, GetBindingValue).
#[inline]
#[tactic(auto, using(crate::proofs::Slotted::found_ok, crate::proofs::Slotted::not_found))]
pub fn get_slot<S: Store>(
    machine: &mut Machine<S>,
    hops: u32,
    slot: u32,
) -> Result<Mode, OutOfMemory>
    ensures { IfOk result (LeadsTo (λ a. get_slot (naming_of machine.old.me) hops slot (party_of a
        machine.old)) machine.old machine.new) }
{
    match local(machine, hops, slot)? {
        Some(value) => machine.give(value),
        None => machine.fault(FaultText::NotInitialised),
    }
}

/// Gives an initialised slot a value, which is given (ECMA-262, SetMutableBinding).
pub fn set_slot<S: Store>(
    machine: &mut Machine<S>,
    hops: u32,
    slot: u32,
    constant: bool,
    value: Value,
) -> Result<Mode, OutOfMemory>
    ensures { IfOk result (LeadsTo (λ a. set_slot (naming_of machine.old.me) hops slot constant
        value (party_of a machine.old)) machine.old machine.new) }
{
    if !has_local(machine, hops, slot) {
        return machine.fault(FaultText::NotInitialised);
    }
    if constant {
        return machine.fault(FaultText::Constant);
    }
    write_local(machine, hops, slot, copy_value(&value)?);
    machine.give(value)
}

/// Initialises a slot, and gives undefined (ECMA-262, InitializeBinding).
pub fn init_slot<S: Store>(
    machine: &mut Machine<S>,
    hops: u32,
    slot: u32,
    value: Value,
) -> Result<Mode, OutOfMemory>
    ensures { IfOk result (LeadsTo (λ a. init_slot (naming_of machine.old.me) hops slot value
        (party_of a machine.old)) machine.old machine.new) }
{
    write_local(machine, hops, slot, value);
    machine.give(Value::Undefined)
}
