// What the machine does where a completion comes to a frame.

ghost use Rattle.std.specs.Prelude.{IfOk};
ghost use Rattle.js_machine.specs.Steps.{IsDelivered, LeadsTo, deed_with, under};
ghost use Rattle.js_machine.specs.declared.frame.Frame.TheVariants as frame_kind;
ghost use Rattle.js_machine.specs.declared.frame.Mode.TheVariants as mode;

use crate::answers::pass_value;
use crate::arguments::{argument_comes, callee_comes, method_comes, new_callee_comes};
use crate::conversions::method_gave;
use crate::decisions::resume_wait;
use crate::listed_arguments::arguments_listed;
use crate::methods::method_key_comes;
use crate::supers::super_method_comes;
use js_desc::reply::Reply;
use js_in_place::js_machine_calls::supers::{bind_this, super_key_comes, super_method_key_comes};
use js_in_place::js_machine_statements::branches::{branch, short};
use js_in_place::js_machine_statements::loops::{test, tested};
use js_in_place::js_machine_statements::sequences::in_order;
use js_in_place::js_machine_statements::slots::{init_slot, set_slot};
use js_in_place::js_machine_statements::tries::end_finally;
use js_machine::frame::{Frame, Mode};
use js_machine::machine::Machine;
use js_machine_classes::classes::{class_prototype_comes, parent_comes};
use js_machine_classes::parts::{define_comes, part_operand_comes, part_value_comes, parts_follow};
use js_machine_operators::conversions::method_got;
use js_machine_operators::globals::put_global;
use js_machine_operators::instances::prototype_comes;
use js_machine_operators::operators::{go_on_binary, unary};
use js_machine_operators::properties::{delete_property, get_key, put_property};
use js_store::store::Store;
use js_text::value::Value;
use lava_base::memory::OutOfMemory;

/// The newest value comes to a frame that was taken off.
pub fn deliver_value<S: Store>(machine: &mut Machine<S>, frame: Frame) -> Result<Mode, OutOfMemory>
    ensures { IfOk result (IsDelivered frame mode.Value machine.old machine.new) }
{
    let value = machine.take();
    go_on(machine, frame, value)
}

/// The key of a property comes to the frame that has the object.
#[tactic(auto, using(js_machine::proofs::Operands::with_object))]
pub(crate) fn go_on_key<S: Store>(machine: &mut Machine<S>, key: Value) -> Result<Mode, OutOfMemory>
    ensures { IfOk result (LeadsTo (deed_with frame_kind.GetKey key machine.old)
        (under frame_kind.GetKey machine.old) machine.new) }
{
    let object = machine.take();
    get_key(machine, object, key)
}

/// The value for a property comes to the frame that has the object and the key.
#[tactic(auto, using(js_machine::proofs::Operands::with_both))]
pub(crate) fn go_on_put<S: Store>(
    machine: &mut Machine<S>,
    value: Value,
) -> Result<Mode, OutOfMemory>
    ensures { IfOk result (LeadsTo (deed_with frame_kind.PutValue value machine.old)
        (under frame_kind.PutValue machine.old) machine.new) }
{
    let key = machine.take();
    let object = machine.take();
    put_property(machine, object, key, value)
}

/// The key of a property that is to be deleted comes to the frame that has the object.
#[tactic(auto, using(js_machine::proofs::Operands::to_delete))]
fn go_on_delete<S: Store>(machine: &mut Machine<S>, key: Value) -> Result<Mode, OutOfMemory>
    ensures { IfOk result (LeadsTo (deed_with frame_kind.DeleteKey key machine.old)
        (under frame_kind.DeleteKey machine.old) machine.new) }
{
    let object = machine.take();
    delete_property(machine, object, key)
}

/// A frame goes on with a value.
fn go_on<S: Store>(
    machine: &mut Machine<S>,
    frame: Frame,
    value: Value,
) -> Result<Mode, OutOfMemory>
    ensures { IfOk result (LeadsTo (deed_with frame value machine.old)
        (under frame machine.old) machine.new) }
{
    match frame {
        Frame::BinaryLeft { operator, right } => {
            machine.wait_with(value, Frame::BinaryRight { operator }, right)
        }
        Frame::If { consequent } => branch(machine, value, consequent, None),
        Frame::IfElse {
            consequent,
            alternate,
        } => branch(machine, value, consequent, Some(alternate)),
        Frame::SetLocal {
            hops,
            slot,
            constant,
        } => set_slot(machine, hops, slot, constant, value),
        Frame::Init { hops, slot } => init_slot(machine, hops, slot, value),
        Frame::ShortLeft { operator, right } => short(machine, operator, value, right),
        Frame::Tested { turns } => tested(machine, turns, value),
        Frame::Updated { turns } => test(machine, turns),
        Frame::Return => machine.end_with(value, Mode::Return),
        Frame::Throw => machine.end_with(value, Mode::Throw),
        Frame::Seq { start, count } => in_order(machine, start, count),
        Frame::Finally { earlier } => end_finally(machine, earlier, value),
        Frame::Given => machine.give(value),
        Frame::GetObject { key } => machine.wait_with(value, Frame::GetKey, key),
        Frame::GetKey => go_on_key(machine, value),
        Frame::PutObject { key, value: at } => {
            machine.wait_with(value, Frame::PutKey { value: at }, key)
        }
        Frame::PutKey { value: at } => machine.wait_with(value, Frame::PutValue, at),
        Frame::PutValue => go_on_put(machine, value),
        Frame::DeleteObject { key } => machine.wait_with(value, Frame::DeleteKey, key),
        Frame::DeleteKey => go_on_delete(machine, value),
        Frame::PutGlobal { name, there } => put_global(machine, name, there, value),
        Frame::Decides => resume_wait(machine, Reply::Value(value)),
        Frame::Arguments {
            purpose,
            done,
            start,
            left,
        } => argument_comes(machine, purpose, done, start, left, value),
        Frame::Callee { arguments } => callee_comes(machine, Value::Undefined, arguments, value),
        Frame::NewCallee { arguments } => new_callee_comes(machine, arguments, value),
        Frame::CallMethod { arguments } => method_comes(machine, arguments, value),
        Frame::CallObject { key, arguments } => {
            machine.wait_with(value, Frame::CallKey { arguments }, key)
        }
        Frame::CallKey { arguments } => method_key_comes(machine, arguments, value),
        Frame::ArgumentsOf { purpose } => arguments_listed(machine, purpose, value),
        Frame::SuperKey => super_key_comes(machine, value),
        Frame::CallSuperKey { arguments } => super_method_key_comes(machine, arguments, value),
        Frame::CallSuperMethod { arguments } => super_method_comes(machine, arguments, value),
        Frame::BindThis => bind_this(machine, value),
        Frame::Unary { operator } => unary(machine, operator, value),
        Frame::BinaryRight { operator } => go_on_binary(machine, operator, value),
        Frame::InstanceOf => prototype_comes(machine, value),
        Frame::MethodGot { last, goal } => method_got(machine, last, goal, value),
        Frame::MethodCalled { last, goal } => method_gave(machine, last, goal, value),
        Frame::Define { start, count } => define_comes(machine, start, count, value),
        Frame::Part {
            enumerable,
            at,
            left,
        } => part_operand_comes(machine, enumerable, at, left, value),
        Frame::PartValue {
            enumerable,
            at,
            left,
        } => part_value_comes(machine, enumerable, at, left, value),
        Frame::Parts {
            enumerable,
            start,
            count,
        } => parts_follow(machine, enumerable, start, count, value),
        Frame::ClassParent { class } => parent_comes(machine, class, value),
        Frame::ClassPrototype { class } => class_prototype_comes(machine, class, value),
        _ if frame.takes_answers() => pass_value(machine, frame, value),
        _ => Err(OutOfMemory),
    }
}
