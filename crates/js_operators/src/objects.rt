// Operators that ask objects.

ghost use Rattle.std.specs.Prelude.{◌≡◌, IfOk};
ghost use Rattle.js_operation.specs.js_run.Operators.{has_instance_by, prototype_inherited};
ghost use Rattle.js_operation.specs.Deeds.{Does, look_deed};
ghost use Rattle.js_operation.specs.Operating.{has_instance, has_key, in_by, in_object, instance_of, looked, prototype_come};

use crate::texts::key_of;
use crate::unary::given_name;
use js_desc::fault::FaultText;
use js_operation::operation::{Computed, Look, Operation, Rest, object_of};
use js_text::value::Value;
use lava_base::ids::Ref;
use lava_base::memory::OutOfMemory;
use std::alloc::Global;

/// Asks an object for a property whose key is a value that is no object (ECMA-262, Relational Operators, of `in`).
pub(crate) fn has_key(alloc: Global, value: &Value, object: Ref) -> Result<Operation, OutOfMemory>
    ensures { IfOk result (λ o. o ≡ has_key value.now object) }
{
    match key_of(alloc, value)? {
        Computed::Is(key) => Ok(Operation::HasProperty { object, key }),
        Computed::Fault(fault) => Ok(Operation::Fault(fault)),
        Computed::End(end) => Ok(Operation::End(end)),
    }
}

/// Asks an object for a property whose key is a value.
fn in_by(
    alloc: Global,
    value: &Value,
    object: Ref,
    converted: Option<Ref>,
) -> Result<Operation, OutOfMemory>
    ensures { IfOk result (λ o. o ≡ in_by value.now object converted) }
{
    match converted {
        Some(converted) => Ok(Operation::Converts {
            object: converted,
            rest: Rest::Key,
            held: Value::Ref(object),
        }),
        None => has_key(alloc, value, object),
    }
}

/// Whether an object has a property (ECMA-262, Relational Operators, of `in`).
pub(crate) fn in_object(
    alloc: Global,
    value: &Value,
    object: &Value,
) -> Result<Operation, OutOfMemory>
    ensures { IfOk result (λ o. o ≡ in_object value.now object.now) }
{
    match object {
        Value::Ref(object) => in_by(alloc, value, *object, object_of(value)),
        _ => Ok(Operation::Fault(FaultText::NotAnObject)),
    }
}

/// Whether a value inherits from a function (ECMA-262, InstanceofOperator).
pub(crate) fn instance_of(value: Value, function: &Value) -> Operation
    ensures { result ≡ instance_of value function.now }
{
    match function {
        Value::Ref(function) => Operation::Looks {
            object: *function,
            look: Look::Instanceof,
            held: value,
        },
        _ => Operation::Fault(FaultText::NotAFunction),
    }
}

/// Goes on with whether an object can be called.
pub fn looked(
    alloc: Global,
    look: Look,
    object: Ref,
    held: Value,
    callable: bool,
) -> Result<Operation, OutOfMemory>
    ensures exact { IfOk result (λ o. o ≡ looked look object held callable) }
    ensures does { IfOk result (Does (λ n s p. look_deed n s look object held p callable)) }
{
    match look {
        Look::Typeof => given_name(alloc, if callable { "function" } else { "object" }),
        Look::Instanceof => {
            if callable {
                return Ok(Operation::HasInstance {
                    function: object,
                    value: held,
                });
            }
            Ok(Operation::Fault(FaultText::NotAFunction))
        }
    }
}

/// Goes on with a function that is not bound (ECMA-262, OrdinaryHasInstance, steps 3 and 4).
pub fn has_instance(function: Ref, value: &Value) -> Operation
    ensures exact { result ≡ has_instance function value.now }
    ensures does { Does (λ n s. has_instance_by n s function value.now) result }
{
    match value {
        Value::Ref(object) => Operation::GetPrototype {
            function,
            object: *object,
        },
        _ => Operation::Value(Value::Bool(false)),
    }
}

/// Goes on with what a function has as `prototype` (ECMA-262, OrdinaryHasInstance, steps 5 and 6).
pub fn prototype_come(object: Ref, prototype: &Value) -> Operation
    ensures exact { result ≡ prototype_come object prototype.now }
    ensures does { Does (λ n s. prototype_inherited n s object prototype.now) result }
{
    match prototype {
        Value::Ref(prototype) => Operation::Inherits {
            object,
            prototype: *prototype,
        },
        _ => Operation::Fault(FaultText::NotAnObject),
    }
}
