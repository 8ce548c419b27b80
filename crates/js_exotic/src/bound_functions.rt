// What a bound function does.

ghost use Rattle.std.specs.Prelude.{◌≡◌, ◌++◌, IfOk};
ghost use Rattle.lava_base.specs.Ids.{same_ref};
ghost use Rattle.js_text.specs.Naming.{naming_of};
ghost use Rattle.js_exotic.specs.BoundFunctions.{bound_function_call, bound_function_construct, call_any, construct_any};

use js_desc::ask::Ask;
use js_desc::copy::copy_values;
use js_desc::decision::Decision;
use js_ordinary::calls::{call_by, construct_by};
use js_ordinary::next::Next;
use js_store::slot::Slot;
use js_text::copy::copy_value;
use js_text::value::Value;
use lava_base::ids::Ref;
use lava_base::list::List;
use lava_base::memory::OutOfMemory;
use std::alloc::Global;

/// Calls a bound function, or another one (ECMA-262, "Bound Function Exotic Objects", [[Call]]).
pub(crate) fn call_any(
    alloc: Global,
    party: u32,
    slot: &Slot,
    this: &Value,
    args: &List<Value>,
) -> Result<Decision<Next>, OutOfMemory>
    ensures { IfOk result (λ d. d ≡ call_any (naming_of party) slot.now this.now args.now) }
{
    match slot {
        Slot::Bound {
            target,
            this: bound,
            args: first,
        } => bound_function_call(alloc, *target, bound, first, args),
        other => call_by(alloc, party, other, this, args),
    }
}

/// Calls the target of a bound function with the bound `this`, and the bound arguments before the others.
fn bound_function_call(
    alloc: Global,
    target: Ref,
    this: &Value,
    bound: &List<Value>,
    args: &List<Value>,
) -> Result<Decision<Next>, OutOfMemory>
    ensures { IfOk result (λ d. d ≡ bound_function_call target this.now bound.now args.now) }
{
    let this = copy_value(this)?;
    let args = joined_arguments(alloc, bound, args)?;
    Ok(Decision::Ask {
        target: Some(target),
        ask: Ask::Call { this, args },
        next: Next::Answer,
    })
}

/// Constructs with a bound function, or another one (ECMA-262, "Bound Function Exotic Objects", [[Construct]]).
pub(crate) fn construct_any(
    alloc: Global,
    me: Ref,
    slot: &Slot,
    constructor: bool,
    new_target: Ref,
    args: &List<Value>,
) -> Result<Decision<Next>, OutOfMemory>
    ensures { let decision = construct_any same_ref me slot.now constructor new_target args.now in
        IfOk result (λ d. d ≡ decision) }
{
    match slot {
        Slot::Bound {
            target,
            args: bound,
            ..
        } if constructor => {
            let itself = me.is_same(new_target);
            bound_function_construct(alloc, *target, new_target, itself, bound, args)
        }
        other => construct_by(alloc, other, constructor, new_target, args),
    }
}

/// Constructs with the target of a bound function, with the bound arguments before the others. The target is its own new target where the bound function was.
fn bound_function_construct(
    alloc: Global,
    target: Ref,
    new_target: Ref,
    itself: bool,
    bound: &List<Value>,
    args: &List<Value>,
) -> Result<Decision<Next>, OutOfMemory>
    ensures { let decision = bound_function_construct target new_target itself bound.now args.now in
        IfOk result (λ d. d ≡ decision) }
{
    let args = joined_arguments(alloc, bound, args)?;
    Ok(Decision::Ask {
        target: Some(target),
        ask: Ask::Construct {
            new_target: if itself { target } else { new_target },
            args,
        },
        next: Next::Answer,
    })
}

/// The bound arguments, and then the others.
fn joined_arguments(
    alloc: Global,
    bound: &List<Value>,
    args: &List<Value>,
) -> Result<List<Value>, OutOfMemory>
    ensures { IfOk result (λ joined. joined ≡ bound.now ++ args.now) }
{
    let mut joined = copy_values(alloc, bound)?;
    for value in args.as_slice() {
        joined.push(copy_value(value)?)?;
    }
    Ok(joined)
}
