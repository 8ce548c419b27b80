// What the names of the machine stand for.

ghost use Rattle.std.specs.Prelude.{◌≡◌, map, IfOk};
ghost use Rattle.ses_prelude.specs.Functions.{operation_slot, iterator_slot, machine_frame};

use js_frames::frame::{Frame, Referent, SlotName};
use js_lower_table::words::word;
use js_text::native::Native;
use lava_base::list::List;
use lava_base::memory::OutOfMemory;
use std::alloc::Global;

/// The natives that a prelude may name, by number.
pub static OPERATIONS: [Native; 52] = [
    Native::GetProto,
    Native::SetProto,
    Native::IsExtensible,
    Native::PreventExt,
    Native::GetOwn,
    Native::DefineOwn,
    Native::Has,
    Native::Get,
    Native::Set,
    Native::Delete,
    Native::OwnKeys,
    Native::Apply,
    Native::Construct,
    Native::MakeObject,
    Native::MakeArray,
    Native::IsArray,
    Native::ClassOf,
    Native::IsCommon,
    Native::Bind,
    Native::MakeProxy,
    Native::Revoke,
    Native::UnitAt,
    Native::FromUnits,
    Native::Slice,
    Native::IndexIn,
    Native::Concat,
    Native::ToText,
    Native::ToNumber,
    Native::ToKey,
    Native::Ascii,
    Native::SortTexts,
    Native::MakeSymbol,
    Native::SymbolFor,
    Native::MakeError,
    Native::MakeMap,
    Native::MapGet,
    Native::MapSet,
    Native::MapHas,
    Native::MapDelete,
    Native::MapClear,
    Native::MapNext,
    Native::MapKeyAt,
    Native::MapSize,
    Native::MakeCompartment,
    Native::Evaluate,
    Native::CompartmentGlobal,
    Native::MakePromise,
    Native::Settle,
    Native::React,
    Native::Queue,
    Native::ImportModule,
    Native::IsModule,
];

/// The slot of a native's name, which has `$` before it.
fn operation_slot(alloc: Global, operation: Native) -> Result<SlotName, OutOfMemory>
    ensures { IfOk result (λ slot. slot ≡ operation_slot operation) }
{
    let mut name = List::new(alloc);
    name.push(b'$')?;
    name.extend_from_slice(operation.name().as_bytes())?;
    Ok(SlotName {
        name: word(alloc, name.as_slice())?,
        referent: Referent::Operation(operation),
    })
}

/// The slot of the name of `Symbol.iterator`.
fn iterator_slot(alloc: Global) -> Result<SlotName, OutOfMemory>
    ensures { IfOk result (λ slot. slot ≡ iterator_slot) }
{
    Ok(SlotName {
        name: word(alloc, b"$iterator")?,
        referent: Referent::IteratorSymbol,
    })
}

/// The slots of some natives' names.
fn operation_slots(alloc: Global, operations: &[Native]) -> Result<Frame, OutOfMemory>
    ensures { IfOk result (λ frame. frame ≡ map operation_slot operations.now) }
{
    let mut frame = Frame::new(alloc);
    for operation in operations {
        frame.push(operation_slot(alloc, *operation)?)?;
    }
    Ok(frame)
}

/// The scope of the names of the machine.
#[tactic(auto, unfolding(crate::specs::Functions::machine_frame, crate::specs::Functions::operations))]
pub(crate) fn machine_frame(alloc: Global) -> Result<Frame, OutOfMemory>
    ensures { IfOk result (λ frame. frame ≡ machine_frame) }
{
    let mut frame = operation_slots(alloc, &OPERATIONS)?;
    frame.push(iterator_slot(alloc)?)?;
    Ok(frame)
}
