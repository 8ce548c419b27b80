// What a party has from the start.

ghost use Rattle.std.specs.Prelude.{◌≡◌, ◌==◌, ◌∷◌, [], map, IfOk};
ghost use Rattle.std.specs.List.{list_any};
ghost use Rattle.lava_view.specs.Starts.{given_by, host_object, root_global};
ghost use Rattle.lava_view.specs.Views as spec;

use js_desc::start::{Grant, Start};
use lava_base::ids::{ObjId, PartyId, Ref};
use lava_base::list::List;
use lava_base::memory::OutOfMemory;
use lava_base::name::Name;
use std::alloc::Global;

/// The numbers of the host's objects.
static HOST_NUMBERS: [u32; 12] = [0, 1, 2, 3, 4, 5, 6, 7, 8, 9, 10, 11];

/// An object of the host.
fn host_object(number: u32) -> Ref
    ensures { result ≡ host_object number }
{
    Ref::Own {
        party: PartyId(0),
        id: ObjId(number),
    }
}

/// The global of the application's own package.
fn root_global() -> Ref
    ensures { result ≡ root_global }
{
    Ref::Own {
        party: PartyId(1),
        id: ObjId(0),
    }
}

/// Objects of the host, by their numbers.
fn host_objects(alloc: Global, numbers: &[u32]) -> Result<List<Ref>, OutOfMemory>
    ensures { IfOk result (λ l. l ≡ map host_object numbers.now) }
{
    let mut objects = List::new(alloc);
    for number in numbers {
        objects.push(host_object(*number))?;
    }
    Ok(objects)
}

/// The global of the application's own package alone.
fn one_global(alloc: Global) -> Result<List<Ref>, OutOfMemory>
    ensures { IfOk result (λ l. l ≡ root_global ∷ []) }
{
    let mut objects = List::new(alloc);
    objects.push(root_global())?;
    Ok(objects)
}

/// The objects of a party that count as left from the start.
#[tactic(auto, using(crate::proofs::Start_laws::host_left, crate::proofs::Start_laws::root_left))]
pub(crate) fn references_left(alloc: Global, party: PartyId) -> Result<List<Ref>, OutOfMemory>
    ensures { IfOk result (λ l. spec.with_all [] l ≡ spec.left_at_start party.0) }
{
    match party.0 {
        0 => host_objects(alloc, &HOST_NUMBERS),
        1 => one_global(alloc),
        _ => Ok(List::new(alloc)),
    }
}

/// Whether a member is this object of the host.
fn is_number(number: u32, member: &(Name, u32)) -> bool
    ensures { result ≡ (number == member.now.1) }
{
    number == member.1
}

/// Whether an object of the host is among these members.
fn is_member(number: u32, members: &[(Name, u32)]) -> bool
    ensures { result ≡ list_any (λ e. number == e.1) members.now }
{
    members.iter().any(|member| is_number(number, member))
}

/// Whether a grant gives an object of the host.
fn gives_object(number: u32, grant: &Grant) -> bool
    ensures { result ≡ spec.gives_object number grant.now }
{
    match grant {
        Grant::Whole(whole) => number == *whole,
        Grant::Part(members) => is_member(number, members.as_slice()),
        Grant::Live { .. } => false,
        Grant::LivePart(_) => false,
    }
}

/// Whether an entry gives an object of the host.
fn entry_gives(number: u32, entry: &(Name, Grant)) -> bool
    ensures { result ≡ spec.gives_object number entry.now.1 }
{
    gives_object(number, &entry.1)
}

/// Whether some entry gives an object of the host.
fn some_gives(number: u32, entries: &[(Name, Grant)]) -> bool
    ensures { result ≡ list_any (λ e. spec.gives_object number e.1) entries.now }
{
    entries.iter().any(|entry| entry_gives(number, entry))
}

/// Whether a start gives an object of the host.
fn any_gives(start: &Start, number: u32) -> bool
    ensures { result ≡ spec.any_grant (spec.gives_object number) start.now }
{
    some_gives(number, start.globals.as_slice()) || some_gives(number, start.builtins.as_slice())
}

/// Whether a grant reads a global of the application's own package.
fn is_live(entry: &(Name, Grant)) -> bool
    ensures { result ≡ spec.is_live entry.now.1 }
{
    match &entry.1 {
        Grant::Live { .. } => true,
        Grant::LivePart(_) => true,
        _ => false,
    }
}

/// Whether some entry reads a global of the application's own package.
fn some_reads(entries: &[(Name, Grant)]) -> bool
    ensures { result ≡ list_any (λ e. spec.is_live e.1) entries.now }
{
    entries.iter().any(|entry| is_live(entry))
}

/// Whether a start reads a global of the application's own package.
fn any_live(start: &Start) -> bool
    ensures { result ≡ spec.any_grant spec.is_live start.now }
{
    some_reads(start.globals.as_slice()) || some_reads(start.builtins.as_slice())
}

/// The objects of the host that a start gives, in their order.
fn given_objects(alloc: Global, start: &Start, numbers: &[u32]) -> Result<List<Ref>, OutOfMemory>
    ensures { IfOk result (λ l. l ≡ given_by start.now numbers.now) }
{
    let mut objects = List::new(alloc);
    for number in numbers {
        if any_gives(start, *number) {
            objects.push(host_object(*number))?;
        }
    }
    Ok(objects)
}

/// The references of a start, in their order.
pub(crate) fn references_of(alloc: Global, start: &Start) -> Result<List<Ref>, OutOfMemory>
    ensures { IfOk result (λ l. l ≡ spec.references_of start.now) }
{
    let mut objects = given_objects(alloc, start, &HOST_NUMBERS)?;
    if any_live(start) {
        objects.push(root_global())?;
    }
    Ok(objects)
}
