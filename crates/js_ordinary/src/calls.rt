// What a call and a construction do.

ghost use Rattle.std.specs.Prelude.{◌≡◌, IfOk};
ghost use Rattle.js_text.specs.Naming.{naming_of};
ghost use Rattle.js_ordinary.specs.Calls.{call_by, construct_by};

use crate::held_functions::call_held;
use crate::next::Next;
use js_desc::copy::copy_values;
use js_desc::decision::Decision;
use js_desc::fault::FaultText;
use js_store::slot::Slot;
use js_text::copy::copy_value;
use js_text::value::Value;
use lava_base::ids::Ref;
use lava_base::list::List;
use lava_base::memory::OutOfMemory;
use std::alloc::Global;

/// Runs the body of a function of a source (ECMA-262, "ECMAScript Function Objects", [[Call]]), or does what a function of the machine does.
pub fn call_by(
    alloc: Global,
    party: u32,
    slot: &Slot,
    this: &Value,
    args: &List<Value>,
) -> Result<Decision<Next>, OutOfMemory>
    ensures { IfOk result (λ d. d ≡ call_by (naming_of party) slot.now this.now args.now) }
{
    match slot {
        Slot::Closure { body, .. } => {
            let this = copy_value(this)?;
            let args = copy_values(alloc, args)?;
            Ok(Decision::Run {
                body: *body,
                this,
                args,
                new_target: None,
            })
        }
        Slot::Held(held) => call_held(party, held, this, args),
        _ => Ok(Decision::Fault(FaultText::NotAFunction)),
    }
}

/// Runs the body of a constructor of a source with a new target (ECMA-262, "ECMAScript Function Objects", [[Construct]]).
pub fn construct_by(
    alloc: Global,
    slot: &Slot,
    constructor: bool,
    new_target: Ref,
    args: &List<Value>,
) -> Result<Decision<Next>, OutOfMemory>
    ensures { IfOk result (λ d. d ≡ construct_by slot.now constructor new_target args.now) }
{
    match slot {
        Slot::Closure { body, .. } if constructor => {
            let args = copy_values(alloc, args)?;
            Ok(Decision::Run {
                body: *body,
                this: Value::Undefined,
                args,
                new_target: Some(new_target),
            })
        }
        _ => Ok(Decision::Fault(FaultText::NotAConstructor)),
    }
}
