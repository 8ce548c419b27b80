// Operators: what they do with the values of their operands.

ghost use Rattle.std.specs.Prelude.{◌≡◌, ◌/◌, ◌≤◌, IfOk, length, true};
ghost use Rattle.js_text.specs.Naming.{naming_of};
ghost use Rattle.js_text.specs.declared.text.TheConstants.{MAX_UNITS as most_units};
ghost use Rattle.js_text.specs.declared.value.Value.TheVariants as value_kind;
ghost use Rattle.js_native.specs.declared.costs.TheConstants.{UNITS_A_STEP as units_a_step};
ghost use Rattle.js_machine.specs.js_run.Acts.{give};
ghost use Rattle.js_machine.specs.js_run.Asking.{see_callable};
ghost use Rattle.js_machine.specs.js_run.Operators.{binary_value, given_text, to_primitive, unary_value};
ghost use Rattle.js_machine.specs.js_operation.Deeds.{Does, act_of, becomes_key, look_deed, rest_deed};
ghost use Rattle.js_machine.specs.Conversions.{Reaches};
ghost use Rattle.js_machine.specs.Operands.{type_name};
ghost use Rattle.js_machine.specs.Steps.{IsDelivered, LeadsTo, deed_with, under};
ghost use Rattle.js_machine.specs.Views.{is_completion, party_of};
ghost use Rattle.js_machine.specs.declared.frame.Frame.TheVariants as frame_kind;
ghost use Rattle.js_machine.specs.declared.frame.Goal.TheVariants as goal_kind;

use crate::instances::{get_prototype, has_instance};
use js_desc::ask::Ask;
use js_desc::fault::FaultText;
use js_machine::frame::{Frame, Goal, Mode};
use js_machine::js_operation::operation::{Look, Operation, Rest};
use js_machine::js_operations::names::ascii_text;
use js_machine::machine::Machine;
use js_native::costs::UNITS_A_STEP;
use js_operators::binary::binary_operation;
use js_operators::integers::integer_operation;
use js_operators::rests::converted;
use js_operators::unary::unary_operation;
use js_store::store::Store;
use js_text::text::Text;
use js_text::value::Value;
use js_tree::operator::{BinaryOperator, UnaryOperator};
use lava_base::ids::Ref;
use lava_base::memory::OutOfMemory;
use std::alloc::Global;

/// How many steps a text costs that is made.
fn text_steps(text: &Text) -> u32
    ensures steps { result ≡ length text.now / units_a_step }
    ensures within { length text.now ≤ most_units }
{
    text.len() / UNITS_A_STEP as u32
}

/// What a binary operator does with a number and its right operand. Of two numbers nothing is converted.
fn operation_on_number(
    alloc: Global,
    operator: BinaryOperator,
    left: i64,
    right: Value,
) -> Result<Operation, OutOfMemory>
    ensures { let number = value_kind.Int left in
        IfOk result (Does (λ n s. binary_value n s operator number right)) }
{
    match right {
        Value::Int(right) => integer_operation(operator, left, right),
        right => binary_operation(alloc, operator, Value::Int(left), right),
    }
}

/// What a binary operator does with its operands.
#[inline]
fn operation_on(
    alloc: Global,
    operator: BinaryOperator,
    left: Value,
    right: Value,
) -> Result<Operation, OutOfMemory>
    ensures { IfOk result (Does (λ n s. binary_value n s operator left right)) }
{
    match left {
        Value::Int(left) => operation_on_number(alloc, operator, left, right),
        left => binary_operation(alloc, operator, left, right),
    }
}

/// A text that was made is given, once its units are paid for.
fn give_made<S: Store>(machine: &mut Machine<S>, text: Text) -> Result<Mode, OutOfMemory>
    ensures { IfOk result (LeadsTo (λ a. given_text text (party_of a machine.old))
        machine.old machine.new) }
{
    let steps = text_steps(&text);
    if steps == 0 {
        return machine.give(Value::Text(text));
    }
    machine.push(Value::Text(text))?;
    machine.pay(steps - 1, Frame::Paid)
}

/// What was charged for is paid: the value is given.
pub fn deliver_paid<S: Store>(machine: &mut Machine<S>, mode: Mode) -> Result<Mode, OutOfMemory>
    requires { is_completion mode ≡ true }
    ensures { IfOk result (IsDelivered frame_kind.Paid mode machine.old machine.new) }
{
    if mode.has_value() {
        let _paid = machine.take();
        return Ok(Mode::Value);
    }
    Ok(Mode::Value)
}

/// The name of an object's type (ECMA-262, The typeof Operator).
fn give_type<S: Store>(machine: &mut Machine<S>, callable: bool) -> Result<Mode, OutOfMemory>
    ensures { let name = type_name callable in
        IfOk result (LeadsTo (λ a. give (value_kind.Text name) (party_of a machine.old))
        machine.old machine.new) }
{
    let name = ascii_text(machine.alloc, if callable { "function" } else { "object" })?;
    machine.give(Value::Text(name))
}

/// It is known whether an object can be called.
fn looked<S: Store>(
    machine: &mut Machine<S>,
    look: Look,
    object: Ref,
    held: Value,
    callable: bool,
) -> Result<Mode, OutOfMemory>
    ensures { IfOk result (LeadsTo (λ a. look_deed (naming_of machine.old.me) a.shared look
        object held (party_of a machine.old) callable) machine.old machine.new) }
{
    match look {
        Look::Typeof => give_type(machine, callable),
        Look::Instanceof => {
            if callable {
                return has_instance(machine, object, held);
            }
            machine.fault(FaultText::NotAFunction)
        }
    }
}

/// Looks whether an object can be called (ECMA-262, IsCallable).
fn look_at<S: Store>(
    machine: &mut Machine<S>,
    look: Look,
    object: Ref,
    held: Value,
) -> Result<Mode, OutOfMemory>
    ensures { let names = naming_of machine.old.me in
        let target = value_kind.Ref object in
        IfOk result (LeadsTo (λ a. see_callable names a.shared target (party_of a machine.old)
        (look_deed names a.shared look object held (party_of a machine.old))) machine.old
        machine.new) }
{
    let callable = machine.marks_of(object).callable;
    looked(machine, look, object, held, callable)
}

/// An object becomes a primitive value for an operator, which holds an operand.
fn convert_operand<S: Store>(
    machine: &mut Machine<S>,
    object: Ref,
    rest: Rest,
    held: Value,
) -> Result<Mode, OutOfMemory>
    ensures { let names = naming_of machine.old.me in
        let operand = value_kind.Ref object in
        IfOk result (LeadsTo (λ a. to_primitive names a.shared (becomes_key rest) operand
        (party_of a machine.old) (rest_deed names a.shared rest held)) machine.old machine.new) }
{
    machine.push(held)?;
    machine.convert_object(object, Goal::Operand(rest))
}

/// Does what an operation says, whatever it is.
fn operate_any<S: Store>(
    machine: &mut Machine<S>,
    operation: Operation,
) -> Result<Mode, OutOfMemory>
    ensures { IfOk result (LeadsTo (λ a. act_of (naming_of machine.old.me) a.shared operation
        (party_of a machine.old)) machine.old machine.new) }
{
    match operation {
        Operation::Value(value) => machine.give(value),
        Operation::Text(text) => give_made(machine, text),
        Operation::Fault(fault) => machine.fault(fault),
        Operation::End(kind) => machine.end_as(kind),
        Operation::Converts { object, rest, held } => convert_operand(machine, object, rest, held),
        Operation::Looks { object, look, held } => look_at(machine, look, object, held),
        Operation::HasProperty { object, key } => {
            machine.ask(object, Ask::HasProperty { key }, Frame::Told)
        }
        Operation::HasInstance { function, value } => has_instance(machine, function, value),
        Operation::GetPrototype { function, object } => get_prototype(machine, function, object),
        Operation::Inherits { object, prototype } => machine.seek(object, prototype),
    }
}

/// Does what an operation says. (A value, which is what comes of most, is given at once: what the others move would be laid out for it, too.)
#[inline]
pub fn operate<S: Store>(
    machine: &mut Machine<S>,
    operation: Operation,
) -> Result<Mode, OutOfMemory>
    ensures { IfOk result (LeadsTo (λ a. act_of (naming_of machine.old.me) a.shared operation
        (party_of a machine.old)) machine.old machine.new) }
{
    match operation {
        Operation::Value(value) => machine.give(value),
        _ => operate_any(machine, operation),
    }
}

/// A unary operator has its operand (ECMA-262, Unary Operators).
pub fn unary<S: Store>(
    machine: &mut Machine<S>,
    operator: UnaryOperator,
    value: Value,
) -> Result<Mode, OutOfMemory>
    ensures { IfOk result (LeadsTo (λ a. unary_value (naming_of machine.old.me) a.shared operator
        value (party_of a machine.old)) machine.old machine.new) }
{
    let operation = unary_operation(machine.alloc, operator, &value)?;
    operate(machine, operation)
}

/// A binary operator has its operands (ECMA-262, EvaluateStringOrNumericBinaryExpression).
#[inline]
fn binary<S: Store>(
    machine: &mut Machine<S>,
    operator: BinaryOperator,
    left: Value,
    right: Value,
) -> Result<Mode, OutOfMemory>
    ensures { let names = naming_of machine.old.me in
        IfOk result (LeadsTo (λ a. binary_value names a.shared operator left right
        (party_of a machine.old)) machine.old machine.new) }
{
    let operation = operation_on(machine.alloc, operator, left, right)?;
    operate(machine, operation)
}

/// The right operand comes to the frame that has the left one.
#[inline]
pub fn go_on_binary<S: Store>(
    machine: &mut Machine<S>,
    operator: BinaryOperator,
    right: Value,
) -> Result<Mode, OutOfMemory>
    ensures { let frame = frame_kind.BinaryRight operator in
        IfOk result (LeadsTo (deed_with frame right machine.old) (under frame machine.old)
        machine.new) }
{
    let left = machine.take();
    binary(machine, operator, left, right)
}

/// The operand of an operator became a primitive value; another one is held.
pub fn operand_comes<S: Store>(
    machine: &mut Machine<S>,
    rest: Rest,
    value: Value,
) -> Result<Mode, OutOfMemory>
    ensures { let goal = goal_kind.Operand rest in
        IfOk result (Reaches goal value machine.old machine.new) }
{
    let held = machine.take();
    let operation = converted(machine.alloc, rest, &held, value)?;
    operate(machine, operation)
}
