// The machine of all parties before anything has happened.

ghost use Rattle.std.specs.Prelude.{◌≡◌, suc, IfOk, OnOk};
ghost use Rattle.js_world.specs.First.{RestsFirst, as_new};
ghost use Rattle.lava_start.specs.Templates.{HaveTemplates, KeepsTemplates};
ghost use Rattle.lava_start.specs.Firsts.{AreAppended, AreOthers, IsFirstWorld, IsHostMachine, IsPackageOver, IsPlace, IsWorldOver, run_parts_of};

use crate::host::host_store;
use crate::marks::known_marks;
use crate::modules::{add_modules, add_templates};
use crate::packages::{
    PackageSource, all_leads, host_links, host_package, package_own, place_holder,
};
use js_code::code::Code;
use js_store::flat::FlatStore;
use js_store::frozen::FrozenStore;
use js_term::term::Template;
use js_world::js_crossing::leads::Lead;
use js_world::js_machine::machine::Machine;
use js_world::js_machine::own::Own;
use js_world::world::FlatWorld;
use lava_base::list::List;
use lava_base::memory::OutOfMemory;
use std::alloc::Global;

/// A code with all templates: those of the common part first, and then those of the modules; and the things of each party that is not in the machine.
#[derive(Drop)]
struct Prepared {
    code: Code,
    places: Vec<u32>,
    others: Vec<Own<FlatStore>>,
}

/// The things of a package, whose templates are appended to a code.
fn add_package(
    alloc: Global,
    code: &mut Code,
    party: u32,
    source: &PackageSource,
) -> Result<Own<FlatStore>, OutOfMemory>
    ensures own { IfOk result (IsPackageOver code.new party source.now) }
    ensures keeps { KeepsTemplates code.old code.new }
{
    let modules = add_modules(alloc, code, source.modules.as_slice())?;
    package_own(alloc, party, source, modules)
}

/// The number of the party behind one.
fn party_behind(party: u32) -> Result<u32, OutOfMemory>
    ensures { IfOk result (λ next. next ≡ suc party) }
{
    match party.checked_add(1) {
        Some(next) => Ok(next),
        None => Err(OutOfMemory),
    }
}

/// Appends the things of packages, whose parties are numbered from one on.
fn add_packages(
    alloc: Global,
    code: &mut Code,
    packages: &[PackageSource],
    others: &mut Vec<Own<FlatStore>>,
) -> Result<(), OutOfMemory>
    ensures packages { OnOk result (AreAppended others.old.items code.new packages.now others.new.items) }
    ensures keeps { KeepsTemplates code.old code.new }
{
    let mut party = 1;
    for source in packages {
        let own = add_package(alloc, code, party, source)?;
        others.push(own)?;
        party = party_behind(party)?;
    }
    Ok(())
}

/// The place of the host, whose things are in the machine.
fn host_place(alloc: Global) -> Result<Vec<Own<FlatStore>>, OutOfMemory>
    ensures { IfOk result (λ p. IsPlace p.items) }
{
    let mut others = Vec::new(alloc);
    others.push(place_holder(alloc)?)?;
    Ok(others)
}

/// Puts all templates into one code, and makes the things of all packages.
fn prepare(
    alloc: Global,
    templates: &[Template],
    packages: &[PackageSource],
) -> Result<Prepared, OutOfMemory>
    ensures templates { IfOk result (λ p. HaveTemplates p.code p.places.items templates.now) }
    ensures packages { IfOk result (λ p. AreOthers p.code packages.now p.others.items) }
{
    let mut code = Code::new(alloc)?;
    let places = add_templates(alloc, &mut code, templates)?;
    let mut others = host_place(alloc)?;
    add_packages(alloc, &mut code, packages, &mut others)?;
    Ok(Prepared {
        code,
        places,
        others,
    })
}

/// The machine with the things of the host, which may import the application's own package.
fn host_machine(
    alloc: Global,
    common: FrozenStore,
    code: Code,
    places: Vec<u32>,
) -> Result<Machine<FlatStore>, OutOfMemory>
    ensures { IfOk result (IsHostMachine common code places.items) }
{
    let objects = host_store(alloc)?;
    let known = known_marks(alloc, &objects)?;
    let own_package = host_package(alloc)?;
    let allowed = host_links(alloc)?;
    Machine::new(
        alloc,
        code,
        objects,
        own_package,
        allowed,
        common,
        places,
        known,
    )
}

/// The machine of all parties over that of the host.
fn world_of(
    alloc: Global,
    machine: Machine<FlatStore>,
    others: Vec<Own<FlatStore>>,
    leads: Vec<List<Lead>>,
    budget: u64,
) -> Result<FlatWorld, OutOfMemory>
    ensures new { IfOk result (λ world. world ≡ as_new machine others.items leads.items budget) }
    ensures rests { IfOk result RestsFirst }
{
    FlatWorld::new(alloc, machine, others, leads, budget)
}

/// The machine of all parties over prepared packages.
fn world_over(
    alloc: Global,
    common: FrozenStore,
    prepared: Prepared,
    leads: Vec<List<Lead>>,
    budget: u64,
) -> Result<FlatWorld, OutOfMemory>
    ensures { IfOk result (IsWorldOver common prepared leads.items budget) }
{
    let Prepared {
        code,
        places,
        others,
    } = prepared;
    let machine = host_machine(alloc, common, code, places)?;
    world_of(alloc, machine, others, leads, budget)
}

/// The machine of all parties of a run: the host and the packages of an application, its own
/// first, stand as a run begins, and nothing has happened.
pub fn first_world(
    alloc: Global,
    common: FrozenStore,
    templates: &[Template],
    packages: &[PackageSource],
    budget: u64,
) -> Result<FlatWorld, OutOfMemory>
    ensures { let parts = run_parts_of common templates.now packages.now in
        IfOk result (IsFirstWorld parts budget) }
{
    let prepared = prepare(alloc, templates, packages)?;
    let leads = all_leads(alloc, packages)?;
    world_over(alloc, common, prepared, leads, budget)
}
