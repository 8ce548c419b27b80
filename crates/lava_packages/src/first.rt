// The machine of all parties before the packages of an application run.

ghost use Rattle.std.specs.Prelude.{IfOk};
ghost use Rattle.lava_packages.specs.Packages.{IsFirstOf};

use crate::common::CommonPart;
use crate::packages::packages_of;
use lava_base::memory::OutOfMemory;
use lava_start::first::first_world;
use lava_start::js_world::world::FlatWorld;
use pkg_graph::graph::Package;
use pkg_load::module::LoadedModule;
use pkg_source::code::ModuleCode;
use policy_row::policy::Policy;
use std::alloc::Global;

/// The machine of all parties before the packages of an application run.
pub fn first_of(
    alloc: Global,
    packages: &[Package],
    modules: &[LoadedModule<ModuleCode>],
    policy: &Policy,
    common: CommonPart,
    budget: u64,
) -> Result<FlatWorld, OutOfMemory>
    ensures { let c = common in
        IfOk result (IsFirstOf packages.now modules.now policy.now c budget) }
{
    let sources = packages_of(alloc, packages, modules, policy)?;
    let CommonPart { objects, templates } = common;
    first_world(
        alloc,
        objects,
        templates.as_slice(),
        sources.as_slice(),
        budget,
    )
}
