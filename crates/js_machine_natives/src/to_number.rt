// The numbers that decisions want (ECMA-262, ToNumber).

ghost use Rattle.std.specs.Prelude.{IfOk};
ghost use Rattle.js_text.specs.Naming.{naming_of};
ghost use Rattle.js_text.specs.declared.value.Key.TheVariants as key_kind;
ghost use Rattle.js_text.specs.declared.value.Value.TheVariants as value_kind;
ghost use Rattle.js_desc.specs.declared.ask.Ask.TheVariants as ask_kind;
ghost use Rattle.js_machine.specs.js_conversions.Conversions.{method_name};
ghost use Rattle.js_machine.specs.js_conversions.declared.next.Wanted.TheVariants as wanted_kind;
ghost use Rattle.js_machine.specs.js_run.Asking.{waits_for};
ghost use Rattle.js_machine.specs.Steps.{LeadsTo, Wakes};
ghost use Rattle.js_machine.specs.Views.{next_of_wait, party_of};
ghost use Rattle.js_machine.specs.Wanting.{number_method_got, tries_rest};
ghost use Rattle.js_machine.specs.declared.asked.Wait.TheVariants as wait_kind;

use js_desc::ask::Ask;
use js_desc::fault::FaultText;
use js_desc::reply::Reply;
use js_machine::asked::{NumberFor, Wait};
use js_machine::decisions::object_of_value;
use js_machine::frame::Mode;
use js_machine::js_conversions::next::Wanted;
use js_machine::js_operations::names::name_key;
use js_machine::machine::Machine;
use js_store::store::Store;
use js_text::value::{Key, Value};
use lava_base::ids::Ref;
use lava_base::list::List;
use lava_base::memory::OutOfMemory;

/// An object is asked for a method by its key.
fn ask_number_by<S: Store>(
    machine: &mut Machine<S>,
    object: Ref,
    last: bool,
    wanted: NumberFor,
    key: Key,
) -> Result<Mode, OutOfMemory>
    ensures { let names = naming_of machine.old.me in
        let ask = ask_kind.Get key (value_kind.Ref object) in
        let wait = wait_kind.MethodGot object last wanted in
        IfOk result (LeadsTo (λ a. waits_for names object ask (party_of a machine.old)
        (next_of_wait names a.shared machine.old.code wait)) machine.old machine.new) }
{
    let ask = Ask::Get {
        key,
        receiver: Value::Ref(object),
    };
    let wait = Wait::MethodGot {
        object,
        last,
        wanted,
    };
    machine.wait_for(object, ask, wait)
}

/// An object is asked for one of the two methods (ECMA-262, OrdinaryToPrimitive, step 3.a).
pub fn ask_number_method<S: Store>(
    machine: &mut Machine<S>,
    object: Ref,
    last: bool,
    wanted: NumberFor,
) -> Result<Mode, OutOfMemory>
    ensures { let names = naming_of machine.old.me in
        let key = key_kind.Text (method_name wanted_kind.Number last) in
        let ask = ask_kind.Get key (value_kind.Ref object) in
        let wait = wait_kind.MethodGot object last wanted in
        IfOk result (LeadsTo (λ a. waits_for names object ask (party_of a machine.old)
        (next_of_wait names a.shared machine.old.code wait)) machine.old machine.new) }
{
    match name_key(machine.alloc, Wanted::Number.method_name(last)) {
        Ok(key) => ask_number_by(machine, object, last, wanted, key),
        Err(error) => {
            wanted.discard();
            Err(error)
        }
    }
}

/// The other method is tried, if it is still to come (ECMA-262, OrdinaryToPrimitive, step 4).
pub fn try_number_rest<S: Store>(
    machine: &mut Machine<S>,
    object: Ref,
    last: bool,
    wanted: NumberFor,
) -> Result<Mode, OutOfMemory>
    ensures { let names = naming_of machine.old.me in
        IfOk result (LeadsTo (λ a. tries_rest names a.shared last object wanted
        (party_of a machine.old)) machine.old machine.new) }
{
    if last {
        wanted.discard();
        return machine.fault(FaultText::CannotConvert);
    }
    ask_number_method(machine, object, true, wanted)
}

/// A method that is an object is called, where it can be (ECMA-262, OrdinaryToPrimitive, step 3.b).
fn call_number_method<S: Store>(
    machine: &mut Machine<S>,
    object: Ref,
    last: bool,
    wanted: NumberFor,
    method: Ref,
) -> Result<Mode, OutOfMemory>
    ensures { let names = naming_of machine.old.me in
        IfOk result (LeadsTo (λ a. number_method_got names a.shared last object wanted
        (value_kind.Ref method) (party_of a machine.old)) machine.old machine.new) }
{
    if machine.marks_of(method).callable {
        let args = List::new(machine.alloc);
        let ask = Ask::Call {
            this: Value::Ref(object),
            args,
        };
        let wait = Wait::MethodCalled {
            object,
            last,
            wanted,
        };
        return machine.wait_for(method, ask, wait);
    }
    try_number_rest(machine, object, last, wanted)
}

/// A method was got.
fn number_method_got<S: Store>(
    machine: &mut Machine<S>,
    object: Ref,
    last: bool,
    wanted: NumberFor,
    method: Value,
) -> Result<Mode, OutOfMemory>
    ensures { let names = naming_of machine.old.me in
        IfOk result (LeadsTo (λ a. number_method_got names a.shared last object wanted method
        (party_of a machine.old)) machine.old machine.new) }
{
    match object_of_value(&method) {
        Some(method) => call_number_method(machine, object, last, wanted, method),
        None => try_number_rest(machine, object, last, wanted),
    }
}

/// An answer comes for a method.
#[tactic(auto, unfolding(js_machine::specs::Views::next_of_want))]
pub fn resume_got<S: Store>(
    machine: &mut Machine<S>,
    object: Ref,
    last: bool,
    wanted: NumberFor,
    reply: Reply,
) -> Result<Mode, OutOfMemory>
    ensures { let wait = wait_kind.MethodGot object last wanted in
        IfOk result (Wakes wait reply machine.old machine.new) }
{
    match reply {
        Reply::Value(method) => number_method_got(machine, object, last, wanted, method),
        reply => {
            wanted.discard();
            machine.reply(reply)
        }
    }
}
