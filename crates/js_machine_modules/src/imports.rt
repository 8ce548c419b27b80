// What an import of another party runs.

ghost use Rattle.std.specs.Prelude.{◌≡◌, [], IfOk, Some};
ghost use Rattle.js_text.specs.Naming.{naming_of};
ghost use Rattle.js_machine.specs.js_run.Modules.{imports, imports_there, loaded_at};
ghost use Rattle.js_machine.specs.Evaluated.{IsImported};
ghost use Rattle.js_machine.specs.Requested.{imported_place};
ghost use Rattle.js_machine.specs.Steps.{LeadsTo};
ghost use Rattle.js_machine.specs.Views.{party_of};

use crate::modules::{evaluate_module, get_exports};
use crate::requests::whole_request;
use crate::require_calls::{begun, module_at, not_found, numbered};
use js_machine::asked::Imported;
use js_machine::frame::{Frame, Mode};
use js_machine::machine::Machine;
use js_store::store::Store;
use js_text::text::Text;
use lava_base::list::List;
use lava_base::memory::OutOfMemory;

/// The number of the module that another party imports; the empty path is the main module's.
fn imported_module<S: Store>(machine: &Machine<S>, path: &[u16]) -> Result<Option<u32>, OutOfMemory>
    ensures { let own = machine.now.own_package in
        IfOk result (λ n. n ≡ imported_place own.modules own.main path.now) }
{
    if path.is_empty() {
        return numbered(machine, &machine.own_package.main);
    }
    module_at(machine, List::new(machine.alloc), path)
}

/// A module that is there is imported; of one that has begun, what `exports` is at that moment.
fn import_numbered<S: Store>(
    machine: &mut Machine<S>,
    number: u32,
    request: &[u16],
) -> Result<Mode, OutOfMemory>
    ensures { let names = naming_of machine.old.me in
        IfOk result (LeadsTo (λ a. let p = party_of a machine.old in
        imports_there names request.now (Some number) (loaded_at names (Some number) p) p)
        machine.old machine.new) }
{
    match begun(machine, number) {
        None => not_found(machine, request),
        Some(None) => evaluate_module(machine, number),
        Some(Some(object)) => get_exports(machine, object, Frame::Given),
    }
}

/// A module is imported, where there is one.
fn import_there<S: Store>(
    machine: &mut Machine<S>,
    number: Option<u32>,
    request: &[u16],
) -> Result<Mode, OutOfMemory>
    ensures { let names = naming_of machine.old.me in
        IfOk result (LeadsTo (λ a. let p = party_of a machine.old in
        imports_there names request.now number (loaded_at names number p) p) machine.old
        machine.new) }
{
    match number {
        None => not_found(machine, request),
        Some(number) => import_numbered(machine, number, request),
    }
}

/// The module that a link and a path name is imported.
fn import_module<S: Store>(
    machine: &mut Machine<S>,
    link: &Text,
    path: &Text,
) -> Result<Mode, OutOfMemory>
    ensures { let names = naming_of machine.old.me in
        IfOk result (LeadsTo (λ a. imports names link.now path.now (party_of a machine.old))
        machine.old machine.new) }
{
    let name = link.to_units(machine.alloc)?;
    let units = path.to_units(machine.alloc)?;
    let request = whole_request(machine.alloc, name.as_slice(), units.as_slice())?;
    let number = imported_module(machine, units.as_slice())?;
    import_there(machine, number, request.as_slice())
}

/// What an import of another party runs, which names the link and the path that it imports.
pub fn import<S: Store>(
    machine: &mut Machine<S>,
    link: &Text,
    path: &Text,
) -> Result<Mode, OutOfMemory>
    requires { machine.now.frames ≡ [] }
    ensures { IfOk result (IsImported link.now path.now machine.old machine.new) }
{
    import_module(machine, link, path)
}

/// The import that is sent, once more.
pub fn sent_import<S: Store>(machine: &Machine<S>) -> Result<Imported, OutOfMemory>
    ensures { IfOk result (λ x. x ≡ machine.now.imported) }
{
    Ok(Imported {
        link: machine.imported.link.copy()?,
        path: machine.imported.path.copy()?,
    })
}
