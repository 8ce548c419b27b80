// What an operator does.

ghost use Rattle.std.specs.Prelude.{◌≡◌};
ghost use Rattle.js_operation.specs.Operating.{flag, flag_operation, number_operation, number_value, object_of, wanted_by};

use js_desc::decision::EndKind;
use js_desc::fault::FaultText;
use js_run::js_conversions::next::Wanted;
use js_text::text::Text;
use js_text::value::{Key, Value};
use js_tree::operator::{BinaryOperator, UnaryOperator};
use lava_base::ids::Ref;

/// What is computed of values that are no objects, or how the operator ends there.
#[derive(Drop)]
pub enum Computed<T> {
    Is(T),
    /// An error with this text is made and thrown.
    Fault(FaultText),
    /// The run ends.
    End(EndKind),
}

/// What an operator does once an object became a primitive value (ECMA-262, ToPrimitive). Another operand is held meanwhile.
#[derive(Clone, Copy, Debug, PartialEq, Eq)]
pub enum Rest {
    /// Takes it as its operand. Nothing is held.
    Unary(UnaryOperator),
    /// Takes it as its left operand. The right one is held.
    Left(BinaryOperator),
    /// Takes it as its right operand. The left one is held, which is primitive, and a number where the operator takes numbers.
    Right(BinaryOperator),
    /// Compares it with the other operand, which is held (ECMA-262, IsLooselyEqual). `negated` is there for `!=`.
    Equal { negated: bool },
    /// Takes it as the key of a property of the object that is held (ECMA-262, Relational Operators, of `in`).
    Key,
}

/// What an operator does once it is known whether an object can be called (ECMA-262, IsCallable).
#[derive(Clone, Copy, Debug, PartialEq, Eq)]
pub enum Look {
    /// `typeof` of the object. Nothing is held.
    Typeof,
    /// `instanceof`, whose right operand the object is. The left one is held.
    Instanceof,
}

/// What an operator does with its operands' values.
#[derive(Drop)]
pub enum Operation {
    /// Gives a value.
    Value(Value),
    /// Gives a text that it made, which is charged for its units.
    Text(Text),
    /// Makes an error with this text and throws it.
    Fault(FaultText),
    /// Ends the run.
    End(EndKind),
    /// Makes an object a primitive value first (ECMA-262, ToPrimitive; ToPropertyKey where the rest is `Key`).
    Converts {
        object: Ref,
        rest: Rest,
        held: Value,
    },
    /// Looks first whether an object can be called (ECMA-262, IsCallable).
    Looks {
        object: Ref,
        look: Look,
        held: Value,
    },
    /// Asks an object for HasProperty, and gives the answer.
    HasProperty {
        object: Ref,
        key: Key,
    },
    /// Tells whether a value inherits from a function, which may be a bound one (ECMA-262, OrdinaryHasInstance).
    HasInstance {
        function: Ref,
        value: Value,
    },
    /// Asks a function that is not bound for its `prototype`, from which the object may inherit (ECMA-262, OrdinaryHasInstance, step 4).
    GetPrototype {
        function: Ref,
        object: Ref,
    },
    /// Asks an object for its prototype, and goes on until that is the one that is sought (ECMA-262, OrdinaryHasInstance, step 6).
    Inherits {
        object: Ref,
        prototype: Ref,
    },
}

impl Rest {
    /// What an object is made: a property key where that is wanted, and else a primitive value without a hint (ECMA-262, ToPrimitive).
    pub fn wanted(self) -> Wanted
        ensures { result ≡ wanted_by self }
    {
        match self {
            Rest::Key => Wanted::Key,
            _ => Wanted::Primitive,
        }
    }
}

/// Gives a truth value, or its opposite where it is negated.
pub fn flag(negated: bool, truth: bool) -> Operation
    ensures { result ≡ flag negated truth }
{
    Operation::Value(Value::Bool(truth != negated))
}

/// Gives a truth value that was computed, or its opposite where it is negated.
pub fn flag_operation(negated: bool, truth: Computed<bool>) -> Operation
    ensures { result ≡ flag_operation negated truth }
{
    match truth {
        Computed::Is(truth) => flag(negated, truth),
        Computed::Fault(fault) => Operation::Fault(fault),
        Computed::End(end) => Operation::End(end),
    }
}

/// A number that was computed, as a value.
pub fn number_value(number: Computed<i64>) -> Computed<Value>
    ensures { result ≡ number_value number }
{
    match number {
        Computed::Is(number) => Computed::Is(Value::Int(number)),
        Computed::Fault(fault) => Computed::Fault(fault),
        Computed::End(end) => Computed::End(end),
    }
}

/// Gives a number that was computed.
pub fn number_operation(number: Computed<i64>) -> Operation
    ensures { result ≡ number_operation number }
{
    match number {
        Computed::Is(number) => Operation::Value(Value::Int(number)),
        Computed::Fault(fault) => Operation::Fault(fault),
        Computed::End(end) => Operation::End(end),
    }
}

/// The object that a value is.
pub fn object_of(value: &Value) -> Option<Ref>
    ensures { result ≡ object_of value.now }
{
    match value {
        Value::Ref(object) => Some(*object),
        _ => None,
    }
}
