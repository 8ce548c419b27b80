// Calls of the host's functions: the outside is asked, and answers.

ghost use Rattle.std.specs.Prelude.{◌≡◌, IfOk, OnOk, map, option_copied, pos};
ghost use Rattle.js_text.specs.declared.value.Value.TheVariants as value;
ghost use Rattle.js_text.specs.Naming.{naming_of};
ghost use Rattle.js_machine.specs.js_run.Hosts.{calls_host, outside_answers, printed_marks, printed_primitive};
ghost use Rattle.js_machine.specs.Outsides.{IsAnswered, answer_of, arguments_in, newest_call, number_at, printed_in, printed_truth, with_call};
ghost use Rattle.js_machine.specs.Steps.{LeadsTo};
ghost use Rattle.js_machine.specs.Views.{party_of};

use crate::require_calls::throw_plain;
use js_desc::ask::Ask;
use js_machine::frame::{Halt, Mode};
use js_machine::js_operations::names::number_text;
use js_machine::machine::Machine;
use js_machine::outside::{HostAnswer, HostCall};
use js_machine::requests::text_of;
use js_store::store::Store;
use js_text::text::Text;
use js_text::value::Value;
use lava_base::ids::Ref;
use lava_base::limits::MAX_SAFE_INTEGER;
use lava_base::list::List;
use lava_base::marks::{Class, Marks};
use lava_base::memory::OutOfMemory;
use std::alloc::Global;

/// How an object that is no error is printed.
static OBJECT: [u16; 8] = [91, 111, 98, 106, 101, 99, 116, 93];

/// How an error is printed.
static ERROR: [u16; 7] = [91, 101, 114, 114, 111, 114, 93];

/// How a function is printed.
static FUNCTION: [u16; 10] = [91, 102, 117, 110, 99, 116, 105, 111, 110, 93];

/// How a symbol is printed.
static SYMBOL: [u16; 8] = [91, 115, 121, 109, 98, 111, 108, 93];

static UNDEFINED: [u16; 9] = [117, 110, 100, 101, 102, 105, 110, 101, 100];

static NULL: [u16; 4] = [110, 117, 108, 108];

static TRUE: [u16; 4] = [116, 114, 117, 101];

static FALSE: [u16; 5] = [102, 97, 108, 115, 101];

/// An object as it is printed, by its marks.
fn marks_word(marks: Marks) -> &'static [u16]
    ensures { result.now ≡ printed_marks marks }
{
    if marks.callable {
        return &FUNCTION;
    }
    match marks.class {
        Class::Error => &ERROR,
        _ => &OBJECT,
    }
}

/// A truth value as it is printed.
fn truth_word(truth: bool) -> &'static [u16]
    ensures { result.now ≡ printed_truth truth }
{
    if truth { &TRUE } else { &FALSE }
}

/// A value that is no object, as it is printed. Want of memory is answered too where it is one, and
/// where it is a number that is no safe integer.
fn printed_primitive(alloc: Global, value: &Value) -> Result<Text, OutOfMemory>
    ensures { IfOk result (λ text. text ≡ printed_primitive value.now) }
{
    match value {
        Value::Undefined => text_of(alloc, &UNDEFINED),
        Value::Null => text_of(alloc, &NULL),
        Value::Bool(truth) => text_of(alloc, truth_word(*truth)),
        Value::Int(number) => number_text(alloc, *number),
        Value::Text(text) => text.copy(),
        Value::Symbol(_) => text_of(alloc, &SYMBOL),
        Value::Ref(_) => Err(OutOfMemory),
    }
}

/// The number that the outside answers. Want of memory is answered where it is no safe integer.
fn number_value(number: u64) -> Result<Value, OutOfMemory>
    ensures { IfOk result (λ v. v ≡ value.Int (pos number)) }
{
    if number > MAX_SAFE_INTEGER {
        return Err(OutOfMemory);
    }
    Ok(Value::Int(number as i64))
}

/// A value as the host prints it.
fn printed<S: Store>(machine: &Machine<S>, value: &Value) -> Result<Text, OutOfMemory>
    ensures { IfOk result (λ text. text ≡ printed_in machine.now value.now) }
{
    match value {
        Value::Ref(object) => text_of(machine.alloc, marks_word(machine.marks_of(*object))),
        _ => printed_primitive(machine.alloc, value),
    }
}

/// Values as the host prints them.
fn printed_all<S: Store>(machine: &Machine<S>, values: &[Value]) -> Result<List<Text>, OutOfMemory>
    ensures { IfOk result (λ texts. texts ≡ map (printed_in machine.now) values.now) }
{
    let mut texts = List::new(machine.alloc);
    for value in values {
        texts.push(printed(machine, value)?)?;
    }
    Ok(texts)
}

/// The arguments of the call that is asked, as the host prints them.
fn printed_arguments<S: Store>(machine: &Machine<S>) -> Result<List<Text>, OutOfMemory>
    ensures { let args = arguments_in machine.now.asked.ask in
        IfOk result (λ texts. texts ≡ map (printed_in machine.now) args) }
{
    match &machine.asked.ask {
        Ask::Call { args, .. } => printed_all(machine, args.as_slice()),
        _ => Ok(List::new(machine.alloc)),
    }
}

/// The number of a function of the host.
fn host_number<S: Store>(machine: &Machine<S>, me: Ref) -> u32
    ensures { result ≡ number_at ((naming_of machine.now.me).origin me) }
{
    match me {
        Ref::Own { party, id } if party.0 == machine.store.party().0 => id.0,
        _ => 0,
    }
}

/// A call is the newest one.
#[tactic(auto, using(js_machine::proofs::Reversed::reverse_push))]
fn add_call<S: Store>(machine: &mut Machine<S>, call: HostCall) -> Result<(), OutOfMemory>
    ensures { OnOk result (machine.new ≡ with_call call machine.old) }
{
    machine.calls.push(call)?;
    Ok(())
}

/// A function of the host is called: the outside is asked, with the arguments as they are
/// printed.
pub fn call_host<S: Store>(machine: &mut Machine<S>, me: Ref) -> Result<Mode, OutOfMemory>
    ensures { let args = arguments_in machine.old.asked.ask in
        IfOk result (LeadsTo (λ a. calls_host (naming_of machine.old.me) a.shared me args
        (party_of a machine.old)) machine.old machine.new) }
{
    let function = host_number(machine, me);
    let arguments = printed_arguments(machine)?;
    add_call(
        machine,
        HostCall {
            function,
            arguments,
        },
    )?;
    Ok(Mode::Outside)
}

/// The newest call of a function of the host, if there is one.
#[tactic(auto, using(crate::proofs::Outside_laws::last_is))]
pub fn newest_call<S: Store>(machine: &Machine<S>) -> Option<&HostCall>
    ensures { option_copied result ≡ newest_call machine.now.calls }
{
    machine.calls.last()
}

/// What the outside answers is given.
fn give_answer<S: Store>(machine: &mut Machine<S>, answer: HostAnswer) -> Result<Mode, OutOfMemory>
    ensures { let told = answer_of answer in
        IfOk result (LeadsTo (λ a. outside_answers (naming_of machine.old.me) a.shared
        (party_of a machine.old) told) machine.old machine.new) }
{
    match answer {
        HostAnswer::Text(text) => machine.give(Value::Text(text)),
        HostAnswer::Number(number) => {
            let value = number_value(number)?;
            machine.give(value)
        }
        HostAnswer::Truth(truth) => machine.give(Value::Bool(truth)),
        HostAnswer::Null => machine.give(Value::Null),
        HostAnswer::Undefined => machine.give(Value::Undefined),
        HostAnswer::Fails(text) => {
            let units = text.to_units(machine.alloc)?;
            throw_plain(machine, units.as_slice())
        }
        HostAnswer::Gone => machine.end_run(Halt::Outside),
    }
}

/// The outside answers the newest call, at which the run paused.
pub fn answer_outside<S: Store>(
    machine: &mut Machine<S>,
    answer: HostAnswer,
) -> Result<Mode, OutOfMemory>
    ensures { IfOk result (IsAnswered answer machine.old machine.new) }
{
    give_answer(machine, answer)
}
