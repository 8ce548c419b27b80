// The start of a package.

ghost use Rattle.std.specs.Prelude.{◌≡◌, ◌++◌, ◌∷◌, [], Some, IfOk, OnOk};
ghost use Rattle.std.specs.Option.{option_copied};
ghost use Rattle.policy_globals.specs.Starts.{whole_grant, start_with, trusted_start, row_start, start_for};

use crate::granted::{builtins_of_keys, globals_of_keys};
use crate::host::HostObject;
use js_desc::start::{Grant, Start};
use lava_base::list::List;
use lava_base::memory::OutOfMemory;
use lava_base::name::Name;
use policy_row::row::Row;
use std::alloc::Global;

/// What a package starts with, by its merged row: its globals and built-in modules, and empty the name, the main module, the links and the modules, which the application tells.
///
/// Where the package is trusted it has everything of the host, whatever the row says. Without a row it has nothing.
///
/// The keys of one kind are looked through once for each first name that they have.
pub fn start_of(alloc: Global, row: Option<&Row>, trusted: bool) -> Result<Start, OutOfMemory>
    ensures { IfOk result (λ start. start ≡ start_for (option_copied row.entry) trusted) }
{
    if trusted {
        return start_of_trusted(alloc);
    }
    match row {
        None => empty_start(alloc, List::new(alloc), List::new(alloc)),
        Some(row) => start_of_row(alloc, row),
    }
}

/// What a row grants.
fn start_of_row(alloc: Global, row: &Row) -> Result<Start, OutOfMemory>
    ensures { IfOk result (λ start. start ≡ row_start (Some row.now)) }
{
    let globals = globals_of_keys(alloc, &row.globals)?;
    let builtins = builtins_of_keys(alloc, &row.builtin)?;
    empty_start(alloc, globals, builtins)
}

/// Everything of the host.
fn start_of_trusted(alloc: Global) -> Result<Start, OutOfMemory>
    ensures { IfOk result (λ start. start ≡ trusted_start) }
{
    let mut globals = List::new(alloc);
    push_whole(alloc, &mut globals, HostObject::Clock)?;
    push_whole(alloc, &mut globals, HostObject::Console)?;
    push_whole(alloc, &mut globals, HostObject::Input)?;
    let mut builtins = List::new(alloc);
    push_whole(alloc, &mut builtins, HostObject::Fs)?;
    empty_start(alloc, globals, builtins)
}

/// Appends the whole of an object of the host.
fn push_whole(
    alloc: Global,
    grants: &mut List<(Name, Grant)>,
    object: HostObject,
) -> Result<(), OutOfMemory>
    ensures { OnOk result (grants.new ≡ grants.old ++ whole_grant object ∷ []) }
{
    grants.push((
        Name::of(alloc, object.name())?,
        Grant::Whole(object.number()),
    ))
}

/// A start with these grants alone.
fn empty_start(
    alloc: Global,
    globals: List<(Name, Grant)>,
    builtins: List<(Name, Grant)>,
) -> Result<Start, OutOfMemory>
    ensures { IfOk result (λ start. start ≡ start_with globals builtins) }
{
    Ok(Start {
        name: Name::of(alloc, "")?,
        main: Name::of(alloc, "")?,
        globals,
        builtins,
        links: List::new(alloc),
        modules: List::new(alloc),
    })
}
