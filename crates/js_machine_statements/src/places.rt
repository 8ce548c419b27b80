// What a body runs with.

ghost use Rattle.std.specs.Prelude.{◌≡◌, IfOk};
ghost use Rattle.js_text.specs.Naming.{naming_of};
ghost use Rattle.js_machine.specs.js_run.Acts.{give};
ghost use Rattle.js_machine.specs.js_run.Parties.{first_body};
ghost use Rattle.js_machine.specs.js_run.Properties.{on_this};
ghost use Rattle.js_machine.specs.js_run.Rows.{target_value};
ghost use Rattle.js_machine.specs.Steps.{LeadsTo};
ghost use Rattle.js_machine.specs.Views.{party_of};

use js_desc::fault::FaultText;
use js_machine::frame::Mode;
use js_machine::machine::Machine;
use js_store::store::Store;
use js_text::value::Value;
use lava_base::memory::OutOfMemory;

/// Gives `this` (ECMA-262, "The this Keyword").
pub fn begin_this<S: Store>(machine: &mut Machine<S>) -> Result<Mode, OutOfMemory>
    ensures { let names = naming_of machine.old.me in
        let this = (first_body machine.old.bodies).this in
        IfOk result (LeadsTo (λ a. on_this names this (party_of a machine.old) give)
        machine.old machine.new) }
{
    match machine.this_value()? {
        Some(value) => machine.give(value),
        None => machine.fault(FaultText::NoThis),
    }
}

/// The new target of the body that runs, or undefined (ECMA-262, GetNewTarget).
pub fn new_target<S: Store>(machine: &Machine<S>) -> Value
    ensures { result ≡ target_value (first_body machine.now.bodies).new_target }
{
    match machine.bodies.last() {
        Some(body) => match body.new_target {
            Some(target) => Value::Ref(target),
            None => Value::Undefined,
        },
        None => Value::Undefined,
    }
}

/// Gives the new target (ECMA-262, "Meta Properties").
pub fn begin_new_target<S: Store>(machine: &mut Machine<S>) -> Result<Mode, OutOfMemory>
    ensures { let target = target_value (first_body machine.old.bodies).new_target in
        IfOk result (LeadsTo (λ a. give target (party_of a machine.old)) machine.old machine.new) }
{
    machine.give(new_target(machine))
}
