// The numbers that decisions want (ECMA-262, ToNumber).

ghost use Rattle.std.specs.Prelude.{IfOk};
ghost use Rattle.js_text.specs.Naming.{naming_of};
ghost use Rattle.js_machine.specs.js_run.Asking.{waits_for};
ghost use Rattle.js_machine.specs.js_run.Conversions.{to_number};
ghost use Rattle.js_machine.specs.Steps.{LeadsTo, Wakes};
ghost use Rattle.js_machine.specs.Views.{party_of};
ghost use Rattle.js_machine.specs.Wanting.{goes_computed, goes_with, number_method_gave, number_comes};
ghost use Rattle.js_machine.specs.declared.asked.Wait.TheVariants as wait_kind;

use crate::decisions::resume_object;
use js_desc::reply::Reply;
use js_machine::asked::NumberFor;
use js_machine::decisions::object_of_value;
use js_machine::frame::Mode;
use js_machine::js_operation::operation::Computed;
use js_machine::machine::Machine;
use js_machine_natives::proxies::proxy_has_number;
use js_machine_natives::to_number::{ask_number_method, try_number_rest};
use js_machine_natives::units::unit_comes;
use js_machine_operators::js_operators::numbers::number_of;
use js_store::store::Store;
use js_text::value::Value;
use lava_base::ids::Ref;
use lava_base::memory::OutOfMemory;

/// What wanted a number goes on with it.
fn go_with_number<S: Store>(
    machine: &mut Machine<S>,
    wanted: NumberFor,
    number: i64,
) -> Result<Mode, OutOfMemory>
    ensures { let names = naming_of machine.old.me in
        IfOk result (LeadsTo (λ a. goes_with names a.shared wanted number
        (party_of a machine.old)) machine.old machine.new) }
{
    match wanted {
        NumberFor::Object { me, next } => {
            resume_object(machine, me, next, Reply::Value(Value::Int(number)))
        }
        NumberFor::Proxy { next } => proxy_has_number(machine, next, number),
        NumberFor::Units { units, items, next } => {
            unit_comes(machine, units, items, next, number)
        }
    }
}

/// What wanted a number goes on with what a primitive value gives.
fn go_computed<S: Store>(
    machine: &mut Machine<S>,
    wanted: NumberFor,
    number: Computed<i64>,
) -> Result<Mode, OutOfMemory>
    ensures { let names = naming_of machine.old.me in
        IfOk result (LeadsTo (λ a. goes_computed names a.shared wanted number
        (party_of a machine.old)) machine.old machine.new) }
{
    match number {
        Computed::Is(number) => go_with_number(machine, wanted, number),
        Computed::Fault(fault) => {
            wanted.discard();
            machine.fault(fault)
        }
        Computed::End(kind) => {
            wanted.discard();
            machine.end_as(kind)
        }
    }
}

/// A primitive value is made the number.
fn number_comes<S: Store>(
    machine: &mut Machine<S>,
    wanted: NumberFor,
    value: &Value,
) -> Result<Mode, OutOfMemory>
    ensures { let names = naming_of machine.old.me in
        IfOk result (LeadsTo (λ a. number_comes names a.shared wanted value.now
        (party_of a machine.old)) machine.old machine.new) }
{
    match number_of(machine.alloc, value) {
        Ok(number) => go_computed(machine, wanted, number),
        Err(error) => {
            wanted.discard();
            Err(error)
        }
    }
}

/// A method gave a value, which is the primitive one where it is no object.
fn number_method_gave<S: Store>(
    machine: &mut Machine<S>,
    object: Ref,
    last: bool,
    wanted: NumberFor,
    value: Value,
) -> Result<Mode, OutOfMemory>
    ensures { let names = naming_of machine.old.me in
        IfOk result (LeadsTo (λ a. number_method_gave names a.shared last object wanted value
        (party_of a machine.old)) machine.old machine.new) }
{
    match object_of_value(&value) {
        Some(_) => try_number_rest(machine, object, last, wanted),
        None => number_comes(machine, wanted, &value),
    }
}

/// A value is made a number, for what wants it (ECMA-262, ToNumber).
pub fn begin_number<S: Store>(
    machine: &mut Machine<S>,
    value: Value,
    wanted: NumberFor,
) -> Result<Mode, OutOfMemory>
    ensures { let names = naming_of machine.old.me in
        IfOk result (LeadsTo (λ a. to_number names a.shared (waits_for names) value
        (party_of a machine.old) (goes_with names a.shared wanted)) machine.old machine.new) }
{
    match object_of_value(&value) {
        Some(object) => ask_number_method(machine, object, false, wanted),
        None => number_comes(machine, wanted, &value),
    }
}

/// An answer comes of a method.
#[tactic(auto, unfolding(js_machine::specs::Views::next_of_want))]
pub fn resume_called<S: Store>(
    machine: &mut Machine<S>,
    object: Ref,
    last: bool,
    wanted: NumberFor,
    reply: Reply,
) -> Result<Mode, OutOfMemory>
    ensures { let wait = wait_kind.MethodCalled object last wanted in
        IfOk result (Wakes wait reply machine.old machine.new) }
{
    match reply {
        Reply::Value(value) => number_method_gave(machine, object, last, wanted, value),
        reply => {
            wanted.discard();
            machine.reply(reply)
        }
    }
}
