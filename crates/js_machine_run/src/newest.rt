// What the commonest frames do with the newest value.
//
// Each has a function of its own that takes the value off, so that the choice between them moves none.

ghost use Rattle.std.specs.Prelude.{IfOk};
ghost use Rattle.js_machine.specs.Steps.{IsDelivered};
ghost use Rattle.js_machine.specs.declared.frame.Frame.TheVariants as frame_kind;
ghost use Rattle.js_machine.specs.declared.frame.Mode.TheVariants as mode;

use crate::arguments::{argument_comes, callee_comes, method_comes};
use crate::deliver::{go_on_key, go_on_put};
use crate::steps::deliver;
use js_in_place::js_machine_statements::branches::{branch, short};
use js_in_place::js_machine_statements::loops::{test, tested};
use js_in_place::js_machine_statements::sequences::in_order;
use js_in_place::js_machine_statements::slots::{init_slot, set_slot};
use js_machine::frame::{Frame, Mode, Purpose};
use js_machine::machine::Machine;
use js_machine_operators::operators::{go_on_binary, unary};
use js_store::store::Store;
use js_text::value::Value;
use js_tree::operator::{BinaryOperator, LogicalOperator, UnaryOperator};
use lava_base::memory::OutOfMemory;

/// The left operand of a binary operator comes.
#[inline]
#[tactic(auto, using(crate::proofs::Coming::stays_there))]
fn left_comes<S: Store>(
    machine: &mut Machine<S>,
    operator: BinaryOperator,
    right: u32,
) -> Result<Mode, OutOfMemory>
    ensures { let frame = frame_kind.BinaryLeft operator right in
        IfOk result (IsDelivered frame mode.Value machine.old machine.new) }
{
    machine.wait_over(Frame::BinaryRight { operator }, right)
}

/// Its right operand comes.
#[inline]
#[tactic(auto, using(crate::proofs::Coming::comes))]
fn right_comes<S: Store>(
    machine: &mut Machine<S>,
    operator: BinaryOperator,
) -> Result<Mode, OutOfMemory>
    ensures { let frame = frame_kind.BinaryRight operator in
        IfOk result (IsDelivered frame mode.Value machine.old machine.new) }
{
    let value = machine.take();
    go_on_binary(machine, operator, value)
}

/// The left operand of a logical operator comes.
#[inline]
fn short_comes<S: Store>(
    machine: &mut Machine<S>,
    operator: LogicalOperator,
    right: u32,
) -> Result<Mode, OutOfMemory>
    ensures { let frame = frame_kind.ShortLeft operator right in
        IfOk result (IsDelivered frame mode.Value machine.old machine.new) }
{
    let value = machine.take();
    short(machine, operator, value, right)
}

/// The test of a branch without an alternate comes.
#[inline]
fn test_comes<S: Store>(machine: &mut Machine<S>, consequent: u32) -> Result<Mode, OutOfMemory>
    ensures { let frame = frame_kind.If consequent in
        IfOk result (IsDelivered frame mode.Value machine.old machine.new) }
{
    let value = machine.take();
    branch(machine, value, consequent, None)
}

/// The test of a branch comes.
#[inline]
fn choice_comes<S: Store>(
    machine: &mut Machine<S>,
    consequent: u32,
    alternate: u32,
) -> Result<Mode, OutOfMemory>
    ensures { let frame = frame_kind.IfElse consequent alternate in
        IfOk result (IsDelivered frame mode.Value machine.old machine.new) }
{
    let value = machine.take();
    branch(machine, value, consequent, Some(alternate))
}

/// The value for a slot comes.
#[inline]
fn local_comes<S: Store>(
    machine: &mut Machine<S>,
    hops: u32,
    slot: u32,
    constant: bool,
) -> Result<Mode, OutOfMemory>
    ensures { let frame = frame_kind.SetLocal hops slot constant in
        IfOk result (IsDelivered frame mode.Value machine.old machine.new) }
{
    let value = machine.take();
    set_slot(machine, hops, slot, constant, value)
}

/// The first value of a slot comes.
#[inline]
fn first_comes<S: Store>(
    machine: &mut Machine<S>,
    hops: u32,
    slot: u32,
) -> Result<Mode, OutOfMemory>
    ensures { let frame = frame_kind.Init hops slot in
        IfOk result (IsDelivered frame mode.Value machine.old machine.new) }
{
    let value = machine.take();
    init_slot(machine, hops, slot, value)
}

/// The test of a loop's turn comes.
#[inline]
fn turn_comes<S: Store>(machine: &mut Machine<S>, turns: u32) -> Result<Mode, OutOfMemory>
    ensures { let frame = frame_kind.Tested turns in
        IfOk result (IsDelivered frame mode.Value machine.old machine.new) }
{
    let value = machine.take();
    tested(machine, turns, value)
}

/// What is returned comes.
#[inline]
fn returned_comes<S: Store>(machine: &mut Machine<S>) -> Result<Mode, OutOfMemory>
    ensures { IfOk result (IsDelivered frame_kind.Return mode.Value machine.old machine.new) }
{
    let value = machine.take();
    machine.end_with(value, Mode::Return)
}

/// The object of a property comes.
#[inline]
#[tactic(auto, using(crate::proofs::Coming::stays_there))]
fn object_comes<S: Store>(machine: &mut Machine<S>, key: u32) -> Result<Mode, OutOfMemory>
    ensures { let frame = frame_kind.GetObject key in
        IfOk result (IsDelivered frame mode.Value machine.old machine.new) }
{
    machine.wait_over(Frame::GetKey, key)
}

/// The object of a property that is to be set comes.
#[inline]
#[tactic(auto, using(crate::proofs::Coming::stays_there))]
fn target_comes<S: Store>(machine: &mut Machine<S>, key: u32, at: u32) -> Result<Mode, OutOfMemory>
    ensures { let frame = frame_kind.PutObject key at in
        IfOk result (IsDelivered frame mode.Value machine.old machine.new) }
{
    machine.wait_over(Frame::PutKey { value: at }, key)
}

/// Its key comes.
#[inline]
#[tactic(auto, using(crate::proofs::Coming::stays_there))]
fn key_comes<S: Store>(machine: &mut Machine<S>, at: u32) -> Result<Mode, OutOfMemory>
    ensures { let frame = frame_kind.PutKey at in
        IfOk result (IsDelivered frame mode.Value machine.old machine.new) }
{
    machine.wait_over(Frame::PutValue, at)
}

/// The object of a method comes.
#[inline]
#[tactic(auto, using(crate::proofs::Coming::stays_there))]
fn receiver_comes<S: Store>(
    machine: &mut Machine<S>,
    key: u32,
    arguments: u32,
) -> Result<Mode, OutOfMemory>
    ensures { let frame = frame_kind.CallObject key arguments in
        IfOk result (IsDelivered frame mode.Value machine.old machine.new) }
{
    machine.wait_over(Frame::CallKey { arguments }, key)
}

/// The operand of an operator comes.
#[inline]
fn operand_comes<S: Store>(
    machine: &mut Machine<S>,
    operator: UnaryOperator,
) -> Result<Mode, OutOfMemory>
    ensures { let frame = frame_kind.Unary operator in
        IfOk result (IsDelivered frame mode.Value machine.old machine.new) }
{
    let value = machine.take();
    unary(machine, operator, value)
}

/// What a loop does after a turn is done.
#[inline]
fn update_comes<S: Store>(machine: &mut Machine<S>, turns: u32) -> Result<Mode, OutOfMemory>
    ensures { let frame = frame_kind.Updated turns in
        IfOk result (IsDelivered frame mode.Value machine.old machine.new) }
{
    let _value = machine.take();
    test(machine, turns)
}

/// A form that others follow is done.
#[inline]
fn others_follow<S: Store>(
    machine: &mut Machine<S>,
    start: u32,
    count: u32,
) -> Result<Mode, OutOfMemory>
    ensures { let frame = frame_kind.Seq start count in
        IfOk result (IsDelivered frame mode.Value machine.old machine.new) }
{
    let _value = machine.take();
    in_order(machine, start, count)
}

/// The key of a property comes.
#[inline]
#[tactic(auto, using(crate::proofs::Coming::comes))]
fn member_comes<S: Store>(machine: &mut Machine<S>) -> Result<Mode, OutOfMemory>
    ensures { let frame = frame_kind.GetKey in
        IfOk result (IsDelivered frame mode.Value machine.old machine.new) }
{
    let value = machine.take();
    go_on_key(machine, value)
}

/// The value for a property comes.
#[inline]
#[tactic(auto, using(crate::proofs::Coming::comes))]
fn property_comes<S: Store>(machine: &mut Machine<S>) -> Result<Mode, OutOfMemory>
    ensures { let frame = frame_kind.PutValue in
        IfOk result (IsDelivered frame mode.Value machine.old machine.new) }
{
    let value = machine.take();
    go_on_put(machine, value)
}

/// What is called comes.
#[inline]
fn function_comes<S: Store>(machine: &mut Machine<S>, arguments: u32) -> Result<Mode, OutOfMemory>
    ensures { let frame = frame_kind.Callee arguments in
        IfOk result (IsDelivered frame mode.Value machine.old machine.new) }
{
    let value = machine.take();
    callee_comes(machine, Value::Undefined, arguments, value)
}

/// The method that is called comes.
#[inline]
fn found_comes<S: Store>(machine: &mut Machine<S>, arguments: u32) -> Result<Mode, OutOfMemory>
    ensures { let frame = frame_kind.CallMethod arguments in
        IfOk result (IsDelivered frame mode.Value machine.old machine.new) }
{
    let value = machine.take();
    method_comes(machine, arguments, value)
}

/// An argument comes.
#[inline]
fn next_comes<S: Store>(
    machine: &mut Machine<S>,
    purpose: Purpose,
    done: u32,
    start: u32,
    left: u32,
) -> Result<Mode, OutOfMemory>
    ensures { let frame = frame_kind.Arguments purpose done start left in
        IfOk result (IsDelivered frame mode.Value machine.old machine.new) }
{
    let value = machine.take();
    argument_comes(machine, purpose, done, start, left, value)
}

/// The newest value comes to a frame that was taken off.
pub fn deliver_newest<S: Store>(machine: &mut Machine<S>, frame: Frame) -> Result<Mode, OutOfMemory>
    ensures { IfOk result (IsDelivered frame mode.Value machine.old machine.new) }
{
    match frame {
        Frame::BinaryLeft { operator, right } => left_comes(machine, operator, right),
        Frame::BinaryRight { operator } => right_comes(machine, operator),
        Frame::ShortLeft { operator, right } => short_comes(machine, operator, right),
        Frame::Unary { operator } => operand_comes(machine, operator),
        Frame::If { consequent } => test_comes(machine, consequent),
        Frame::IfElse {
            consequent,
            alternate,
        } => choice_comes(machine, consequent, alternate),
        Frame::SetLocal {
            hops,
            slot,
            constant,
        } => local_comes(machine, hops, slot, constant),
        Frame::Init { hops, slot } => first_comes(machine, hops, slot),
        Frame::Tested { turns } => turn_comes(machine, turns),
        Frame::Updated { turns } => update_comes(machine, turns),
        Frame::Seq { start, count } => others_follow(machine, start, count),
        Frame::Return => returned_comes(machine),
        Frame::GetObject { key } => object_comes(machine, key),
        Frame::GetKey => member_comes(machine),
        Frame::PutObject { key, value } => target_comes(machine, key, value),
        Frame::PutKey { value } => key_comes(machine, value),
        Frame::PutValue => property_comes(machine),
        Frame::CallObject { key, arguments } => receiver_comes(machine, key, arguments),
        Frame::Callee { arguments } => function_comes(machine, arguments),
        Frame::CallMethod { arguments } => found_comes(machine, arguments),
        Frame::Arguments {
            purpose,
            done,
            start,
            left,
        } => next_comes(machine, purpose, done, start, left),
        _ => deliver(machine, frame, Mode::Value),
    }
}
