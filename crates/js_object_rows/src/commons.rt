// What the frozen common part answers.

ghost use Rattle.std.specs.Prelude.{◌<◌, length};

use crate::fault::Fault;
use crate::shown::{push_number, push_truth, push_word};
use crate::stores::{push_keys, push_marks, push_proto, push_value, slot_name};
use crate::words::number_of;
use js_store::flat::FlatStore;
use js_store::frozen::{FrozenStore, bare_common};
use js_store::store::Store;
use js_text::value::Key;
use lava_base::ids::{CommonId, PartyId};
use std::alloc::Global;

/// `bare PLACE`: of the bare common part how many objects it has, and all that is known of one.
pub fn bare(alloc: Global, out: &mut String, word: &str) -> Result<(), Fault> {
    let common = bare_common(alloc)?;
    push_number(out, i64::from(common.count()))?;
    let id = CommonId(number_of(word)?);
    if id.0 >= common.count() {
        return Err(Fault::Line);
    }
    push_common(alloc, out, &common, id)
}

/// Appends all that is known of a common object.
fn push_common(
    alloc: Global,
    out: &mut String,
    common: &FrozenStore,
    id: CommonId,
) -> Result<(), Fault>
    requires { id.0 < length common.now }
{
    push_marks(out, common.marks(id))?;
    push_proto(out, common.proto(id))?;
    push_truth(out, common.extensible(id))?;
    push_word(out, slot_name(common.slot(id)))?;
    push_value(out, common.own(id, &Key::Index(0)))?;
    push_keys(alloc, out, &common.keys(alloc, id)?)
}

/// `freeze`: how many objects a common part has that is made of an empty store.
pub fn freeze(alloc: Global, out: &mut String) -> Result<(), Fault> {
    let common = FrozenStore::freeze(FlatStore::empty(alloc, PartyId(0)));
    push_number(out, i64::from(common.count()))
}
