// Asks, with their targets.

ghost use Rattle.std.specs.Prelude.{◌≡◌, ◌∷◌, [], OnOk};
ghost use Rattle.std.specs.List.{flat_map};
ghost use Rattle.js_text.specs.Natives.{native_name};
ghost use Rattle.js_desc.specs.declared.ask.Ask.TheVariants as ask;
ghost use Rattle.lava_journal.specs.Bodies as spec;
ghost use Rattle.lava_journal.specs.Bodies.{all_spaced, items, plain};
ghost use Rattle.lava_journal.specs.Pages.{with_each};

use crate::fields::write_fields;
use crate::page::{Page, write_word};
use crate::values::{
    write_object_or_null, write_spaced_key, write_spaced_number, write_spaced_object,
    write_spaced_text, write_spaced_value, write_spaced_values, write_spaced_word,
};
use js_desc::ask::Ask;
use js_desc::descriptor::PartialDescriptor;
use js_text::native::Native;
use js_text::text::Text;
use js_text::value::{Key, Value};
use lava_base::ids::Ref;
use lava_base::list::List;
use lava_base::memory::OutOfMemory;

/// Writes the target, where there is one.
#[tactic(auto, using(crate::proofs::Piece_laws::spacing))]
fn write_target<P: Page>(page: &mut P, target: Option<Ref>) -> Result<(), OutOfMemory>
    ensures { OnOk result (page.new ≡ with_each P.with_piece page.old
        (all_spaced (spec.target_items target))) }
{
    match target {
        None => Ok(()),
        Some(target) => write_spaced_object(page, target),
    }
}

/// Writes what SetPrototypeOf has.
#[tactic(auto, using(crate::proofs::Piece_laws::spacing))]
fn write_proto_item<P: Page>(page: &mut P, proto: Option<Ref>) -> Result<(), OutOfMemory>
    ensures { OnOk result (page.new ≡ with_each P.with_piece page.old
        (all_spaced (items (ask.SetPrototypeOf proto)))) }
{
    write_word(page, " ")?;
    write_object_or_null(page, proto)
}

/// Writes a key alone, as GetOwnProperty, HasProperty and Delete have it.
#[tactic(auto, using(crate::proofs::Piece_laws::spacing))]
fn write_key_item<P: Page>(page: &mut P, key: &Key) -> Result<(), OutOfMemory>
    ensures { OnOk result (page.new ≡ with_each P.with_piece page.old
        (all_spaced (spec.key_pieces key.now ∷ []))) }
{
    write_spaced_key(page, key)
}

/// Writes what DefineOwnProperty has.
#[tactic(auto, using(crate::proofs::Piece_laws::spacing))]
fn write_define_items<P: Page>(
    page: &mut P,
    key: &Key,
    fields: &PartialDescriptor,
) -> Result<(), OutOfMemory>
    ensures { OnOk result (page.new ≡ with_each P.with_piece page.old
        (all_spaced (items (ask.DefineOwnProperty key.now fields.now)))) }
{
    write_spaced_key(page, key)?;
    write_word(page, " ")?;
    write_fields(page, fields)
}

/// Writes what Get has.
#[tactic(auto, using(crate::proofs::Piece_laws::spacing))]
fn write_get_items<P: Page>(page: &mut P, key: &Key, receiver: &Value) -> Result<(), OutOfMemory>
    ensures { OnOk result (page.new ≡ with_each P.with_piece page.old
        (all_spaced (items (ask.Get key.now receiver.now)))) }
{
    write_spaced_key(page, key)?;
    write_spaced_value(page, receiver)
}

/// Writes what Set has.
#[tactic(auto, using(crate::proofs::Piece_laws::spacing))]
fn write_set_items<P: Page>(
    page: &mut P,
    key: &Key,
    value: &Value,
    receiver: &Value,
) -> Result<(), OutOfMemory>
    ensures { OnOk result (page.new ≡ with_each P.with_piece page.old
        (all_spaced (items (ask.Set key.now value.now receiver.now)))) }
{
    write_spaced_key(page, key)?;
    write_spaced_value(page, value)?;
    write_spaced_value(page, receiver)
}

/// Writes what Call has.
#[tactic(auto, using(crate::proofs::Piece_laws::one_spaced))]
fn write_call_items<P: Page>(page: &mut P, this: &Value, args: &[Value]) -> Result<(), OutOfMemory>
    ensures { OnOk result (page.new ≡ with_each P.with_piece page.old
        (all_spaced (items (ask.Call this.now args.now)))) }
{
    write_spaced_value(page, this)?;
    write_spaced_values(page, args)
}

/// Writes what Construct has.
#[tactic(auto, using(crate::proofs::Piece_laws::one_spaced))]
fn write_construct_items<P: Page>(
    page: &mut P,
    new_target: Ref,
    args: &[Value],
) -> Result<(), OutOfMemory>
    ensures { OnOk result (page.new ≡ with_each P.with_piece page.old
        (all_spaced (items (ask.Construct new_target args.now)))) }
{
    write_spaced_object(page, new_target)?;
    write_spaced_values(page, args)
}

/// Writes what Import has.
#[tactic(auto, using(crate::proofs::Piece_laws::spacing))]
fn write_import_items<P: Page>(page: &mut P, link: &Text, path: &Text) -> Result<(), OutOfMemory>
    ensures { OnOk result (page.new ≡ with_each P.with_piece page.old
        (all_spaced (items (ask.Import link.now path.now)))) }
{
    write_spaced_text(page, link)?;
    write_spaced_text(page, path)
}

/// Writes the globals of a new party.
fn write_globals<P: Page>(page: &mut P, globals: &[(Key, Value)]) -> Result<(), OutOfMemory>
    ensures { OnOk result (page.new ≡ with_each P.with_piece page.old
        (all_spaced (flat_map spec.global_items globals.now))) }
{
    for (key, value) in globals {
        write_spaced_key(page, key)?;
        write_spaced_value(page, value)?;
    }
    Ok(())
}

/// Writes the modules of a new party.
fn write_modules<P: Page>(page: &mut P, modules: &[(Text, Value)]) -> Result<(), OutOfMemory>
    ensures { OnOk result (page.new ≡ with_each P.with_piece page.old
        (all_spaced (flat_map spec.module_items modules.now))) }
{
    for (name, value) in modules {
        write_spaced_text(page, name)?;
        write_spaced_value(page, value)?;
    }
    Ok(())
}

/// Writes what Make has.
#[tactic(auto, using(crate::proofs::Piece_laws::spacing))]
fn write_make_items<P: Page>(
    page: &mut P,
    globals: &[(Key, Value)],
    modules: &[(Text, Value)],
) -> Result<(), OutOfMemory>
    ensures { OnOk result (page.new ≡ with_each P.with_piece page.old
        (all_spaced (items (ask.Make globals.now modules.now)))) }
{
    write_spaced_number(page, globals.len() as u64)?;
    write_globals(page, globals)?;
    write_spaced_number(page, modules.len() as u64)?;
    write_modules(page, modules)?;
    Ok(())
}

/// Writes the items behind the target.
#[tactic(auto, using(crate::proofs::Piece_laws::nothing_spaced))]
fn write_items<P: Page>(page: &mut P, ask: &Ask) -> Result<(), OutOfMemory>
    ensures { OnOk result (page.new ≡ with_each P.with_piece page.old
        (all_spaced (items ask.now))) }
{
    match ask {
        Ask::GetPrototypeOf => Ok(()),
        Ask::SetPrototypeOf { proto } => write_proto_item(page, *proto),
        Ask::IsExtensible => Ok(()),
        Ask::PreventExtensions => Ok(()),
        Ask::GetOwnProperty { key } => write_key_item(page, key),
        Ask::DefineOwnProperty { key, descriptor } => write_define_items(page, key, descriptor),
        Ask::HasProperty { key } => write_key_item(page, key),
        Ask::Get { key, receiver } => write_get_items(page, key, receiver),
        Ask::Set {
            key,
            value,
            receiver,
        } => write_set_items(page, key, value, receiver),
        Ask::Delete { key } => write_key_item(page, key),
        Ask::OwnPropertyKeys => Ok(()),
        Ask::Call { this, args } => write_call_items(page, this, args.as_slice()),
        Ask::Construct { new_target, args } => {
            write_construct_items(page, *new_target, args.as_slice())
        }
        Ask::Import { link, path } => write_import_items(page, link, path),
        Ask::Slot { args, .. } => write_spaced_values(page, args.as_slice()),
        Ask::Make { globals, modules } => {
            write_make_items(page, globals.as_slice(), modules.as_slice())
        }
        Ask::Queue => Ok(()),
        Ask::Turn => Ok(()),
    }
}

/// Writes the name of a native behind a space.
#[tactic(auto, using(crate::proofs::Piece_laws::spacing))]
fn write_native<P: Page>(page: &mut P, native: Native) -> Result<(), OutOfMemory>
    ensures { OnOk result (page.new ≡ with_each P.with_piece page.old
        (all_spaced (plain (native_name native) ∷ []))) }
{
    write_spaced_word(page, native.name())
}

/// Writes what stands before the target: the native of a Slot.
#[tactic(auto, using(crate::proofs::Piece_laws::nothing_spaced))]
fn write_native_item<P: Page>(page: &mut P, ask: &Ask) -> Result<(), OutOfMemory>
    ensures { OnOk result (page.new ≡ with_each P.with_piece page.old
        (all_spaced (spec.native_items ask.now))) }
{
    match ask {
        Ask::Slot { which, .. } => write_native(page, *which),
        _ => Ok(()),
    }
}

/// Writes an ask.
#[tactic(auto, using(crate::proofs::Piece_laws::sequence))]
pub(crate) fn write_ask<P: Page>(
    page: &mut P,
    target: Option<Ref>,
    ask: &Ask,
) -> Result<(), OutOfMemory>
    ensures { OnOk result (page.new ≡ with_each P.with_piece page.old
        (spec.ask_pieces target ask.now)) }
{
    write_word(page, "ask ")?;
    write_word(page, ask.name())?;
    write_native_item(page, ask)?;
    write_target(page, target)?;
    write_items(page, ask)
}
