// `fromUnits`: the items of an array become the units of a text, one after the other (ECMA-262, String.fromCharCode).

ghost use Rattle.std.specs.Prelude.{◌≡◌, ℕ, ℤ, List, Option, IfOk, drop};
ghost use Rattle.js_text.specs.Naming.{naming_of};
ghost use Rattle.js_machine.specs.js_conversions.Primitives.{ReadsNumbers};
ghost use Rattle.js_machine.specs.js_run.Natives.{from_units, gives_units, unit_of_number, units_of};
ghost use Rattle.js_machine.specs.js_run.NativeTurns.{given_items};
ghost use Rattle.js_machine.specs.js_run.Operators.{given_text};
ghost use Rattle.js_machine.specs.Steps.{LeadsTo};
ghost use Rattle.js_machine.specs.Views.{args_on, party_of};
ghost use Rattle.js_machine.specs.Wanting.{goes_with};
ghost use Rattle.js_machine.specs.declared.asked.NumberFor.TheVariants as number_for_kind;
ghost use Rattle.js_machine_natives.specs.Units.{goes_after, item_of_conversion, item_read, units_read};

use crate::natives::give_made_text;
use crate::to_number::ask_number_method;
use js_desc::decision::{Decision, EndKind};
use js_desc::fault::FaultText;
use js_desc::reply::Reply;
use js_machine::asked::NumberFor;
use js_machine::decisions::object_of_value;
use js_machine::frame::Mode;
use js_machine::js_conversions::next::Next;
use js_machine::js_conversions::primitives::to_number;
use js_machine::js_operations::lists::list_items;
use js_machine::machine::Machine;
use js_store::store::Store;
use js_text::fault::TextFault;
use js_text::text::from_units;
use js_text::value::Value;
use lava_base::ids::Ref;
use lava_base::list::List;
use lava_base::memory::OutOfMemory;
use std::alloc::Global;

/// How far items have become units.
#[derive(Drop)]
pub enum Reading {
    /// To the end.
    Done,
    /// To this object, behind which the items from `next` on stand.
    Object { object: Ref, next: usize },
    /// To an item for which an error is thrown.
    Fault(FaultText),
    /// To an item at which the run ends.
    End(EndKind),
}

/// An item as a unit, or how far items have become units where it is none.
#[derive(Drop)]
pub enum ItemRead {
    Unit(u16),
    Stop(Reading),
}

/// A number as a unit of a text (ECMA-262, ToUint16).
fn unit_of_number(number: i64) -> u16
    ensures { result ≡ unit_of_number number }
{
    number.rem_euclid(0x1_0000) as u16
}

/// The number of a conversion as a unit.
fn item_of_conversion(decision: Decision<Next>) -> ItemRead
    ensures { result ≡ item_of_conversion decision }
{
    match decision {
        Decision::Done(Reply::Value(Value::Int(number))) => ItemRead::Unit(unit_of_number(number)),
        Decision::Fault(fault) => ItemRead::Stop(Reading::Fault(fault)),
        Decision::End(kind) => ItemRead::Stop(Reading::End(kind)),
        _ => ItemRead::Stop(Reading::Fault(FaultText::WrongKind)),
    }
}

/// An item, behind which the items from `next` on stand, as a unit.
fn item_read(alloc: Global, next: usize, value: &Value) -> Result<ItemRead, OutOfMemory>
    ensures { (read : List ℕ → Option ℤ) → ReadsNumbers read
        → IfOk result (λ item. item ≡ item_read read next value.now) }
{
    match object_of_value(value) {
        Some(object) => Ok(ItemRead::Stop(Reading::Object { object, next })),
        None => Ok(item_of_conversion(to_number(alloc, value)?)),
    }
}

/// The items from a place on become units behind those that are there, as far as none is an object.
fn read_units(
    alloc: Global,
    units: &mut List<u16>,
    items: &[Value],
    from: usize,
) -> Result<Reading, OutOfMemory>
    ensures { (read : List ℕ → Option ℤ) → ReadsNumbers read
        → IfOk result (λ r. (r, units.new) ≡ units_read read (drop from items.now) from
        units.old) }
{
    for at in from..items.len() {
        match item_read(alloc, at + 1, &items[at])? {
            ItemRead::Unit(unit) => units.push(unit)?,
            ItemRead::Stop(reading) => return Ok(reading),
        }
    }
    Ok(Reading::Done)
}

/// The text of these units is given, and charged for them.
fn give_units<S: Store>(machine: &mut Machine<S>, units: &[u16]) -> Result<Mode, OutOfMemory>
    ensures { IfOk result (LeadsTo (λ a. given_text units.now (party_of a machine.old)) machine.old
        machine.new) }
{
    match from_units(machine.alloc, units) {
        Ok(text) => give_made_text(machine, text),
        Err(TextFault::TooLong) => machine.end_as(EndKind::Text),
        // Units have no bytes.
        Err(_) => Err(OutOfMemory),
    }
}

/// What is done after the items have become units as far as this.
fn go_after<S: Store>(
    machine: &mut Machine<S>,
    reading: Reading,
    units: List<u16>,
    items: List<Value>,
) -> Result<Mode, OutOfMemory>
    ensures { IfOk result (LeadsTo (λ a. goes_after (naming_of machine.old.me) a.shared
        (party_of a machine.old) items (reading, units)) machine.old machine.new) }
{
    match reading {
        Reading::Done => give_units(machine, units.as_slice()),
        Reading::Object { object, next } => {
            let wanted = NumberFor::Units { units, items, next };
            ask_number_method(machine, object, false, wanted)
        }
        Reading::Fault(fault) => machine.fault(fault),
        Reading::End(kind) => machine.end_as(kind),
    }
}

/// The items from a place on become units behind those that are there, and the text is given.
fn go_on_units<S: Store>(
    machine: &mut Machine<S>,
    mut units: List<u16>,
    items: List<Value>,
    from: usize,
) -> Result<Mode, OutOfMemory>
    ensures { let left = drop from items in
        IfOk result (LeadsTo (λ a. gives_units (naming_of machine.old.me) a.shared left units
        (party_of a machine.old)) machine.old machine.new) }
{
    let reading = read_units(machine.alloc, &mut units, items.as_slice(), from)?;
    go_after(machine, reading, units, items)
}

/// An item that is an object became a number.
pub fn unit_comes<S: Store>(
    machine: &mut Machine<S>,
    mut units: List<u16>,
    items: List<Value>,
    next: usize,
    number: i64,
) -> Result<Mode, OutOfMemory>
    ensures { let wanted = number_for_kind.Units units items next in
        IfOk result (LeadsTo (λ a. goes_with (naming_of machine.old.me) a.shared wanted number
        (party_of a machine.old)) machine.old machine.new) }
{
    units.push(unit_of_number(number))?;
    go_on_units(machine, units, items, next)
}

/// `fromUnits` with its list.
fn act_on_list<S: Store>(machine: &mut Machine<S>, list: &Value) -> Result<Mode, OutOfMemory>
    ensures { let names = naming_of machine.old.me in
        IfOk result (LeadsTo (λ a. units_of names a.shared (given_items names a.shared
        (party_of a machine.old) list.now) (party_of a machine.old)) machine.old machine.new) }
{
    match list_items(machine.alloc, &machine.store, &machine.common, list)? {
        Some(items) => go_on_units(machine, List::new(machine.alloc), items, 0),
        None => machine.fault(FaultText::CannotConvert),
    }
}

/// `fromUnits`, once it is charged, with the newest values as its operands.
pub fn act_units<S: Store>(machine: &mut Machine<S>, count: u32) -> Result<Mode, OutOfMemory>
    ensures { let args = args_on count machine.old.values in
        let rest = record machine.old { values = drop count machine.old.values } in
        IfOk result (LeadsTo (λ a. from_units (naming_of machine.old.me) a.shared args
        (party_of a machine.old)) rest machine.new) }
{
    let args = machine.take_arguments(count)?;
    let given = args.len();
    if given == 1 {
        return act_on_list(machine, args.item(0));
    }
    machine.fault(FaultText::WrongKind)
}
