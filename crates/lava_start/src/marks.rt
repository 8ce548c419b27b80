// What all parties know from the start: the host's objects, and the global of the application's own package.

ghost use Rattle.std.specs.Prelude.{◌≡◌, length, IfOk};
ghost use Rattle.lava_base.specs.Ids.{same_ref};
ghost use Rattle.js_store.specs.Foreign.{with_marks};
ghost use Rattle.js_world.specs.js_run.Globals.{global_marks};
ghost use Rattle.lava_start.specs.Grants.{root_global};
ghost use Rattle.lava_start.specs.Making.{first_marks};

use crate::global::GLOBAL_MARKS;
use crate::objects::host;
use js_store::flat::FlatStore;
use js_store::foreign::Foreign;
use js_store::store::Store;
use lava_base::ids::{ObjId, PartyId, Ref};
use lava_base::memory::OutOfMemory;
use std::alloc::Global;

/// The marks of all objects of a store of the host.
fn host_marks(alloc: Global, objects: &FlatStore) -> Result<Foreign, OutOfMemory>
    ensures { let count = length objects.now.objects in
        IfOk result (λ known. known ≡ first_marks objects.now.objects count) }
{
    let mut known = Foreign::new(alloc);
    for number in 0..objects.count() {
        known.add(host(number), objects.marks(ObjId(number)))?;
    }
    Ok(known)
}

/// The global of the application's own package.
fn root_global() -> Ref
    ensures { result ≡ root_global }
{
    Ref::Own {
        party: PartyId(1),
        id: ObjId(0),
    }
}

/// The marks of all objects of a store of the host, and of the global of the application's own package.
pub fn known_marks(alloc: Global, objects: &FlatStore) -> Result<Foreign, OutOfMemory>
    ensures { let hosts = first_marks objects.now.objects (length objects.now.objects) in
        IfOk result (λ known. known ≡ with_marks same_ref root_global global_marks hosts) }
{
    let mut known = host_marks(alloc, objects)?;
    known.add(root_global(), GLOBAL_MARKS)?;
    Ok(known)
}
