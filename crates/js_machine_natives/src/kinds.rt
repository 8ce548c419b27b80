// What `classOf` tells of its operand: a proxy is asked whether it stands before an array.

ghost use Rattle.std.specs.Prelude.{◌≡◌, IfOk, Some, drop};
ghost use Rattle.js_text.specs.Naming.{naming_of};
ghost use Rattle.js_desc.specs.declared.decision.Decision.TheVariants as decision_kind;
ghost use Rattle.js_machine.specs.js_maker_natives.Kinds.{class_of};
ghost use Rattle.js_machine.specs.js_operations.Looks.{marks_seen};
ghost use Rattle.js_machine.specs.js_run.SlotNatives.{tells_kind};
ghost use Rattle.js_machine.specs.Proxying.{known_of};
ghost use Rattle.js_machine.specs.SlotAsks.{first_object};
ghost use Rattle.js_machine.specs.Steps.{LeadsTo};
ghost use Rattle.js_machine.specs.Views.{args_on, party_of};
ghost use Rattle.js_machine_natives.specs.Telling.{kind_follows};

use crate::natives::follow_native;
use crate::proxies::known_if;
use crate::slot_asks::{ask_object, first_object};
use js_desc::ask::Ask;
use js_desc::decision::Decision;
use js_desc::fault::FaultText;
use js_machine::frame::Mode;
use js_machine::js_maker_natives::kinds::class_of;
use js_machine::js_maker_natives::next::Next as MakerNext;
use js_machine::js_native_steps::next::of_maker;
use js_machine::machine::Machine;
use js_store::foreign::Foreign;
use js_store::store::Store;
use js_text::native::Native;
use js_text::value::Value;
use lava_base::ids::Ref;
use lava_base::memory::OutOfMemory;

/// What `classOf` decides of these operands.
fn kind_decision<S: Store>(
    machine: &Machine<S>,
    args: &[Value],
) -> Result<Decision<MakerNext>, OutOfMemory>
    ensures { let known = known_of machine.now (first_object args.now) in
        let names = naming_of machine.now.me in
        let seen = marks_seen names machine.now.objects machine.now.common known in
        IfOk result (λ d. d ≡ class_of seen args.now) }
{
    let nothing = Foreign::new(machine.alloc);
    let object = first_object(args);
    let known = known_if(machine.store.party(), object, &machine.foreign, &nothing);
    class_of(machine.alloc, &machine.store, &machine.common, known, args)
}

/// Asks an object for `classOf`, which remembers whether it can be called.
fn ask_kind<S: Store>(
    machine: &mut Machine<S>,
    target: Ref,
    ask: Ask,
    next: MakerNext,
) -> Result<Mode, OutOfMemory>
    ensures { let decision = decision_kind.Ask (Some target) ask next in
        IfOk result (LeadsTo (λ a. kind_follows (naming_of machine.old.me) a.shared decision
        (party_of a machine.old)) machine.old machine.new) }
{
    match next {
        MakerNext::KindTold { callable } => {
            ask_object(machine, target, Native::ClassOf, Some(callable), ask)
        }
        // It waits for nothing else.
        _ => Err(OutOfMemory),
    }
}

/// Asks an object for `classOf`, where one is named.
fn ask_kind_of<S: Store>(
    machine: &mut Machine<S>,
    target: Option<Ref>,
    ask: Ask,
    next: MakerNext,
) -> Result<Mode, OutOfMemory>
    ensures { let decision = decision_kind.Ask target ask next in
        IfOk result (LeadsTo (λ a. kind_follows (naming_of machine.old.me) a.shared decision
        (party_of a machine.old)) machine.old machine.new) }
{
    match target {
        Some(target) => ask_kind(machine, target, ask, next),
        None => machine.fault(FaultText::WrongKind),
    }
}

/// Follows what `classOf` decides.
fn follow_kind<S: Store>(
    machine: &mut Machine<S>,
    decision: Decision<MakerNext>,
) -> Result<Mode, OutOfMemory>
    ensures { IfOk result (LeadsTo (λ a. kind_follows (naming_of machine.old.me) a.shared decision
        (party_of a machine.old)) machine.old machine.new) }
{
    match decision {
        Decision::Ask { target, ask, next } => ask_kind_of(machine, target, ask, next),
        _ => follow_native(machine, Native::ClassOf, of_maker(decision)),
    }
}

/// `classOf`, once it is charged, with the newest values as its operands.
pub fn act_kind<S: Store>(machine: &mut Machine<S>, count: u32) -> Result<Mode, OutOfMemory>
    ensures { let args = args_on count machine.old.values in
        let rest = record machine.old { values = drop count machine.old.values } in
        IfOk result (LeadsTo (λ a. tells_kind (naming_of machine.old.me) a.shared args
        (party_of a machine.old)) rest machine.new) }
{
    let args = machine.take_arguments(count)?;
    let decision = kind_decision(machine, args.as_slice())?;
    follow_kind(machine, decision)
}
