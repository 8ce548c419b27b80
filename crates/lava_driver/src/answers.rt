// What the host answers to a call of one of its functions.

ghost use Rattle.std.specs.Prelude.{◌≡◌, ◌∷◌, List, IfOk};
ghost use Rattle.js_world.specs.js_run.Outside.{OutsideCall};
ghost use Rattle.js_world.specs.js_machine.Outsides.{answer_of};
ghost use Rattle.lava_host.specs.Hosts.{host_world};
ghost use Rattle.js_desc.specs.declared.ask.Ask.TheVariants as asks;
ghost use Rattle.js_text.specs.declared.value.Value.TheVariants as values;
ghost use Rattle.lava_driver.specs.Talks.{IsAnsweredBy, IsHostTalk, number_answered, reply_answered, text_values, thrown_answered, value_answered};

use js_desc::ask::Ask;
use js_desc::reply::Reply;
use js_text::text::Text;
use js_text::value::Value;
use js_world::js_machine::outside::{HostAnswer, HostCall};
use js_world::js_machine::requests::text_of;
use lava_base::ids::{ObjId, PartyId, Ref};
use lava_base::list::List;
use lava_base::memory::OutOfMemory;
use lava_host::fault::{HostFault, Which};
use lava_host::host::Host;
use lava_streams::clock::Clock;
use lava_streams::folder::Folder;
use lava_streams::sink::Sink;
use lava_streams::source::Source;
use std::alloc::Global;

/// What the outside answers, and the object of it that failed, if one did.
#[derive(Drop)]
pub struct Answered {
    pub answer: HostAnswer,
    pub failed: Option<Which>,
}

fn number_answer(number: i64) -> HostAnswer
    ensures { answer_of result ≡ number_answered number }
{
    if number < 0 {
        return HostAnswer::Undefined;
    }
    HostAnswer::Number(number as u64)
}

fn value_answer(value: Value) -> HostAnswer
    ensures { answer_of result ≡ value_answered value }
{
    match value {
        Value::Text(text) => HostAnswer::Text(text),
        Value::Int(number) => number_answer(number),
        Value::Bool(truth) => HostAnswer::Truth(truth),
        Value::Null => HostAnswer::Null,
        _ => HostAnswer::Undefined,
    }
}

fn thrown_answer(alloc: Global, value: Value) -> Result<HostAnswer, OutOfMemory>
    ensures { IfOk result (λ x. answer_of x ≡ thrown_answered value) }
{
    match value {
        Value::Text(text) => Ok(HostAnswer::Fails(text)),
        _ => Ok(HostAnswer::Fails(text_of(alloc, &[])?)),
    }
}

/// A reply of the host as the outside's answer.
fn reply_answer(alloc: Global, reply: Reply) -> Result<HostAnswer, OutOfMemory>
    ensures { IfOk result (λ x. answer_of x ≡ reply_answered reply) }
{
    match reply {
        Reply::Value(value) => Ok(value_answer(value)),
        Reply::Throw(value) => thrown_answer(alloc, value),
        _ => Ok(HostAnswer::Undefined),
    }
}

/// Texts as values.
fn values_of(alloc: Global, texts: &[Text]) -> Result<List<Value>, OutOfMemory>
    ensures { IfOk result (λ values. values ≡ text_values texts.now) }
{
    let mut values = List::new(alloc);
    for text in texts {
        values.push(Value::Text(text.copy()?))?;
    }
    Ok(values)
}

/// A call as the host is asked.
fn ask_of(alloc: Global, call: &HostCall) -> Result<Ask, OutOfMemory>
    ensures { let args = text_values call.now.arguments in
        IfOk result (λ x. x ≡ asks.Call values.Undefined args) }
{
    let args = values_of(alloc, call.arguments())?;
    Ok(Ask::Call {
        this: Value::Undefined,
        args,
    })
}

/// What the host gives, as the outside's answer.
fn answered_of(alloc: Global, given: Result<Reply, HostFault>) -> Result<Answered, OutOfMemory>
    ensures { IfOk result (λ x. IsAnsweredBy given x.answer x.failed) }
{
    match given {
        Ok(reply) => Ok(Answered {
            answer: reply_answer(alloc, reply)?,
            failed: None,
        }),
        Err(HostFault::Outside(which)) => Ok(Answered {
            answer: HostAnswer::Gone,
            failed: Some(which),
        }),
        Err(HostFault::OutOfMemory) => Err(OutOfMemory),
    }
}

/// The host is asked what a call of one of its functions does, and does it.
pub fn ask_host<F: Folder, I: Source, O: Sink, E: Sink, C: Clock>(
    host: &mut Host,
    alloc: Global,
    call: &HostCall,
    emit: bool,
    dir: &str,
    folder: &mut F,
    input: &mut I,
    out: &mut O,
    err: &mut E,
    clock: &mut C,
) -> Result<Answered, OutOfMemory>
    ensures { (earlier : List OutsideCall) →
        let before = host_world (F.Folder.stand folder.old) (I.Source.stand input.old)
        (O.Sink.stand out.old) (E.Sink.stand err.old) (C.Clock.stand clock.old) in
        let after = host_world (F.Folder.stand folder.new) (I.Source.stand input.new)
        (O.Sink.stand out.new) (E.Sink.stand err.new) (C.Clock.stand clock.new) in
        IfOk result (λ x. IsHostTalk emit dir.now
        (record { party = 0; calls = call.now ∷ earlier; answer = answer_of x.answer; failed = x.failed })
        before after) }
{
    let ask = ask_of(alloc, call)?;
    let target = Ref::Own {
        party: PartyId(0),
        id: ObjId(call.function()),
    };
    let given = host.answer(
        alloc, target, &ask, emit, dir, folder, input, out, err, clock,
    );
    answered_of(alloc, given)
}
