// What keyed collections decide that a native looks into.

ghost use Rattle.std.specs.Prelude.{◌≡◌, ◌<◌, IfOk, OnOk, length};
ghost use Rattle.js_text.specs.Naming.{Own, naming_of};
ghost use Rattle.js_machine.specs.js_run.Acts.{as_it_is};
ghost use Rattle.js_machine.specs.js_run.Collections.{follows_table};
ghost use Rattle.js_machine.specs.js_run.Following.{follows_by};
ghost use Rattle.js_machine.specs.js_slot_natives.SlotNatives.{table_given};
ghost use Rattle.js_store.specs.Objects.{object_at};
ghost use Rattle.js_store.specs.Tables.{entries_of};
ghost use Rattle.js_machine.specs.Collecting.{collected, table_by, with_entries};
ghost use Rattle.js_machine.specs.Steps.{LeadsTo};
ghost use Rattle.js_machine.specs.Views.{party_of};

use js_collections::answers::answer_of;
use js_desc::ask::Ask;
use js_desc::fault::FaultText;
use js_machine::frame::Mode;
use js_machine::machine::Machine;
use js_ordinary::target::{find_target, slot};
use js_store::slot::Slot;
use js_store::store::Store;
use js_text::value::Value;
use lava_base::ids::{ObjId, Ref};
use lava_base::memory::OutOfMemory;

/// What a collection answers to a native.
fn answer_in(slot: &Slot, ask: &Ask) -> Result<Option<Value>, OutOfMemory>
    ensures { IfOk result (λ v. v ≡ (table_by (entries_of slot.now) ask.now).0) }
{
    match (slot, ask) {
        (Slot::Table(entries), Ask::Slot { which, args }) => {
            answer_of(entries.as_slice(), *which, args.as_slice())
        }
        // No other object is a collection, and it is asked nothing else here.
        _ => Err(OutOfMemory),
    }
}

/// What an own collection answers to a native, and what becomes of it.
fn collect_own<S: Store>(store: &mut S, id: ObjId, ask: &Ask) -> Result<Option<Value>, OutOfMemory>
    requires { id.0 < length (S.objects store.old) }
    ensures answer { let entries = entries_of (object_at (S.objects store.old) id.0).slot in
        IfOk result (λ v. v ≡ (table_by entries ask.now).0) }
    ensures changed { let entries = entries_of (object_at (S.objects store.old) id.0).slot in
        let table = (table_by entries ask.now).1 in
        OnOk result (S.objects store.new ≡ with_entries (S.objects store.old) (Own id.0) table) }
    ensures party { S.owner store.new ≡ S.owner store.old }
{
    match ask {
        Ask::Slot { which, args } => store.collect(id, *which, args.as_slice()),
        // It is asked nothing else here.
        _ => Err(OutOfMemory),
    }
}

/// What a collection answers to the native that the machine asks for.
fn collection_answer<S: Store>(machine: &Machine<S>, me: Ref) -> Result<Option<Value>, OutOfMemory>
    ensures { IfOk result (λ v. v ≡ (collected machine.now me).0) }
{
    match find_target(&machine.store, &machine.common, me) {
        Some(target) => {
            answer_in(
                slot(&machine.store, &machine.common, target),
                &machine.asked.ask,
            )
        }
        // No collection is nowhere.
        None => Err(OutOfMemory),
    }
}

/// What an own object answers to that native, and what becomes of it.
fn collect_object<S: Store>(
    machine: &mut Machine<S>,
    id: ObjId,
) -> Result<Option<Value>, OutOfMemory>
    ensures answer { let entries = entries_of (object_at machine.old.objects id.0).slot in
        IfOk result (λ v. v ≡ (table_by entries machine.old.asked.ask).0) }
    ensures changed { let entries = entries_of (object_at machine.old.objects id.0).slot in
        let table = (table_by entries machine.old.asked.ask).1 in
        let objects = with_entries machine.old.objects (Own id.0) table in
        OnOk result (machine.new ≡ record machine.old { objects = objects }) }
{
    if id.0 >= machine.store.count() {
        return Err(OutOfMemory);
    }
    collect_own(&mut machine.store, id, &machine.asked.ask)
}

/// What a collection answers to that native, and what becomes of it; only an own one is changed.
fn collect<S: Store>(machine: &mut Machine<S>, me: Ref) -> Result<Option<Value>, OutOfMemory>
    ensures answer { IfOk result (λ v. v ≡ (collected machine.old me).0) }
    ensures changed { let table = (collected machine.old me).1 in
        let objects = with_entries machine.old.objects ((naming_of machine.old.me).origin me) table
        in
        OnOk result (machine.new ≡ record machine.old { objects = objects }) }
{
    match me {
        Ref::Own { party, id } if party.0 == machine.store.party().0 => {
            collect_object(machine, id)
        }
        _ => collection_answer(machine, me),
    }
}

/// What a table gives.
fn give_found<S: Store>(
    machine: &mut Machine<S>,
    answer: Option<Value>,
) -> Result<Mode, OutOfMemory>
    ensures { let decision = table_given answer in
        IfOk result (LeadsTo (λ a. follows_by (naming_of machine.old.me) (λ n. as_it_is) decision
        (party_of a machine.old)) machine.old machine.new) }
{
    match answer {
        Some(value) => machine.give(value),
        None => machine.fault(FaultText::WrongKind),
    }
}

/// A collection decides of the ask of the machine.
pub fn decide_collection<S: Store>(machine: &mut Machine<S>, me: Ref) -> Result<Mode, OutOfMemory>
    ensures { let given = collected machine.old me in
        IfOk result (LeadsTo (λ a. follows_table (naming_of machine.old.me) me
        (table_given given.0, given.1) (party_of a machine.old)) machine.old machine.new) }
{
    let answer = collect(machine, me)?;
    give_found(machine, answer)
}
