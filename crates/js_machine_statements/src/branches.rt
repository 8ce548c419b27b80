// One way or another, by a value.

ghost use Rattle.std.specs.Prelude.{◌≡◌, IfOk, if◌then◌else◌};
ghost use Rattle.std.specs.Option.{option_map};
ghost use Rattle.js_code.specs.Decoded.{term_at};
ghost use Rattle.js_machine.specs.js_run.Acts.{Become, give};
ghost use Rattle.js_machine.specs.js_run.Control.{branch, otherwise};
ghost use Rattle.js_machine.specs.js_run.Operators.{short_value};
ghost use Rattle.js_machine.specs.js_run.Truth.{is_nullish, to_boolean};
ghost use Rattle.js_machine.specs.Steps.{LeadsTo};
ghost use Rattle.js_machine.specs.Views.{keeps_left, party_of};

use js_machine::branches::is_nullish;
use js_machine::frame::Mode;
use js_machine::machine::Machine;
use js_store::store::Store;
use js_text::value::Value;
use js_tree::operator::LogicalOperator;
use lava_base::memory::OutOfMemory;

/// Whether a value counts as true (ECMA-262, ToBoolean).
pub fn is_true(value: &Value) -> bool
    ensures { result ≡ to_boolean value.now }
{
    match value {
        Value::Undefined | Value::Null => false,
        Value::Bool(truth) => *truth,
        Value::Int(n) => *n != 0,
        Value::Text(text) => text.len() != 0,
        Value::Symbol(_) | Value::Ref(_) => true,
    }
}

/// Whether the left operand is the value of a logical operator.
fn keeps(operator: LogicalOperator, value: &Value) -> bool
    ensures { result ≡ keeps_left operator value.now }
{
    match operator {
        LogicalOperator::And => !is_true(value),
        LogicalOperator::Or => is_true(value),
        LogicalOperator::Coalesce => !is_nullish(value),
    }
}

/// One of two forms takes the place of this one; where there is no second one, undefined is given.
fn choose<S: Store>(
    machine: &mut Machine<S>,
    truth: bool,
    consequent: u32,
    alternate: Option<u32>,
) -> Result<Mode, OutOfMemory>
    ensures { let term = term_at machine.old.code in
        IfOk result (LeadsTo (λ a. if truth then Become (term consequent) (party_of a machine.old)
        else otherwise (option_map term alternate) (party_of a machine.old)) machine.old
        machine.new) }
{
    if truth {
        return machine.replace_by(consequent);
    }
    match alternate {
        Some(at) => machine.replace_by(at),
        None => machine.give(Value::Undefined),
    }
}

/// One of two forms takes the place of this one, by the truth of a value.
pub fn branch<S: Store>(
    machine: &mut Machine<S>,
    value: Value,
    consequent: u32,
    alternate: Option<u32>,
) -> Result<Mode, OutOfMemory>
    ensures { let term = term_at machine.old.code in
        IfOk result (LeadsTo (λ a. branch value (term consequent) (option_map term alternate)
        (party_of a machine.old)) machine.old machine.new) }
{
    choose(machine, is_true(&value), consequent, alternate)
}

/// A value is given, or a form takes the place of this one.
fn keep_or<S: Store>(
    machine: &mut Machine<S>,
    keeps: bool,
    value: Value,
    right: u32,
) -> Result<Mode, OutOfMemory>
    ensures { let term = term_at machine.old.code right in
        IfOk result (LeadsTo (λ a. if keeps then give value (party_of a machine.old)
        else Become term (party_of a machine.old)) machine.old machine.new) }
{
    if keeps {
        return machine.give(value);
    }
    machine.replace_by(right)
}

/// The left operand is the value, or the right one takes its place (ECMA-262, "Binary Logical Operators").
pub fn short<S: Store>(
    machine: &mut Machine<S>,
    operator: LogicalOperator,
    value: Value,
    right: u32,
) -> Result<Mode, OutOfMemory>
    ensures { let term = term_at machine.old.code right in
        IfOk result (LeadsTo (λ a. short_value operator value term (party_of a machine.old))
        machine.old machine.new) }
{
    keep_or(machine, keeps(operator, &value), value, right)
}
