// The grants of globals and built-in modules.

ghost use Rattle.std.specs.Prelude.{◌≡◌, ◌++◌, IfOk, OnOk};
ghost use Rattle.std.specs.Option.{option_to_list};
ghost use Rattle.std.specs.List.{filter_map};
ghost use Rattle.policy_globals.specs.Hosts.{members_in};
ghost use Rattle.policy_globals.specs.Starts.{deciding, host_member, live_member, with_name, granted_members, whole_or_part, host_grant, member_if_live, live_part, live_grant, grant_for, grant_of, globals_of, builtins_of, builtin_list, builtin_grant};

use crate::host::{HostObject, host_global_of};
use crate::intrinsic::is_intrinsic_name;
use crate::keys::{firsts_of, seconds_of};
use js_desc::start::Grant;
use lava_base::list::List;
use lava_base::memory::OutOfMemory;
use lava_base::name::Name;
use policy_row::grade::Grade;
use policy_row::row::grade_at;
use std::alloc::Global;

/// The globals that keys grant, in byte order.
pub(crate) fn globals_of_keys(
    alloc: Global,
    keys: &List<(Name, Grade)>,
) -> Result<List<(Name, Grant)>, OutOfMemory>
    ensures { IfOk result (λ grants. grants ≡ globals_of keys.now) }
{
    let firsts = firsts_of(alloc, keys)?;
    let mut globals = List::new(alloc);
    for (name, grade) in firsts.as_slice() {
        let grant = grant_of_name(alloc, keys, name.as_str(), *grade)?;
        push_grant(&mut globals, name, grant)?;
    }
    Ok(globals)
}

/// Appends a grant, if there is one.
fn push_grant(
    globals: &mut List<(Name, Grant)>,
    name: &Name,
    grant: Option<Grant>,
) -> Result<(), OutOfMemory>
    ensures { OnOk result (globals.new ≡ globals.old ++ option_to_list (with_name name.now grant)) }
{
    match grant {
        None => Ok(()),
        Some(grant) => globals.push((name.copy()?, grant)),
    }
}

/// What keys grant of a first name that has this grade.
fn grant_of_name(
    alloc: Global,
    keys: &List<(Name, Grade)>,
    name: &str,
    whole: Grade,
) -> Result<Option<Grant>, OutOfMemory>
    ensures { IfOk result (λ grant. grant ≡ grant_of keys.now (name.now, whole)) }
{
    if is_intrinsic_name(name) {
        return Ok(None);
    }
    let parts = seconds_of(alloc, name, keys)?;
    grant_of_parts(alloc, host_global_of(name), &parts, whole)
}

/// What is granted of a name, by what stands below it.
fn grant_of_parts(
    alloc: Global,
    object: Option<HostObject>,
    parts: &List<(Name, Grade)>,
    whole: Grade,
) -> Result<Option<Grant>, OutOfMemory>
    ensures { IfOk result (λ grant. grant ≡ grant_for object parts.now whole) }
{
    match object {
        None => live_grant_of(alloc, parts, whole),
        Some(object) => host_grant_of(alloc, parts, object, whole),
    }
}

/// What is granted of an object of the host.
fn host_grant_of(
    alloc: Global,
    parts: &List<(Name, Grade)>,
    object: HostObject,
    whole: Grade,
) -> Result<Option<Grant>, OutOfMemory>
    ensures { IfOk result (λ grant. grant ≡ host_grant parts.now object whole) }
{
    let members = object.members();
    let granted = granted_members_of(alloc, parts, whole, members)?;
    Ok(grant_of_members(object.number(), members.len(), granted))
}

/// The whole object where as many members are granted as it has, else these, if any.
fn grant_of_members(number: u32, count: usize, granted: List<(Name, u32)>) -> Option<Grant>
    ensures { result ≡ whole_or_part number count granted }
{
    if granted.is_empty() {
        return None;
    }
    if granted.len() == count {
        return Some(Grant::Whole(number));
    }
    Some(Grant::Part(granted))
}

/// The members that are granted, in their order.
fn granted_members_of(
    alloc: Global,
    parts: &List<(Name, Grade)>,
    whole: Grade,
    members: &[(&'static str, u32)],
) -> Result<List<(Name, u32)>, OutOfMemory>
    ensures { let members = members_in (λ name. name.now) members.now in
        IfOk result (λ granted. granted ≡ granted_members parts.now whole members) }
{
    let mut granted = List::new(alloc);
    for (name, number) in members {
        push_member(alloc, &mut granted, parts, whole, name, *number)?;
    }
    Ok(granted)
}

/// Appends a member, if it is granted.
fn push_member(
    alloc: Global,
    granted: &mut List<(Name, u32)>,
    parts: &List<(Name, Grade)>,
    whole: Grade,
    name: &str,
    number: u32,
) -> Result<(), OutOfMemory>
    ensures { let member = host_member parts.now whole name.now number in
        OnOk result (granted.new ≡ granted.old ++ option_to_list member) }
{
    if decides(grade_at(parts, name), whole) {
        granted.push((Name::of(alloc, name)?, number))?;
    }
    Ok(())
}

/// Whether a member is granted, by the grade of its own key, if there is one, and that of its object.
fn decides(own: Option<Grade>, whole: Grade) -> bool
    ensures { result ≡ deciding own whole }
{
    match own {
        None => whole.is_granting(),
        Some(own) => own.is_granting(),
    }
}

/// What is granted of a global of the application's own package.
fn live_grant_of(
    alloc: Global,
    parts: &List<(Name, Grade)>,
    whole: Grade,
) -> Result<Option<Grant>, OutOfMemory>
    ensures { IfOk result (λ grant. grant ≡ live_grant parts.now whole) }
{
    if whole.is_granting() {
        return Ok(Some(Grant::Live {
            write: whole.is_write(),
        }));
    }
    let granted = live_members_of(alloc, parts)?;
    Ok(grant_of_live(granted))
}

/// These members, if there are any.
fn grant_of_live(granted: List<(Name, bool)>) -> Option<Grant>
    ensures { result ≡ live_part granted }
{
    if granted.is_empty() {
        return None;
    }
    Some(Grant::LivePart(granted))
}

/// The names that are granted, each with whether writing is.
fn live_members_of(
    alloc: Global,
    parts: &List<(Name, Grade)>,
) -> Result<List<(Name, bool)>, OutOfMemory>
    ensures { IfOk result (λ granted. granted ≡ filter_map member_if_live parts.now) }
{
    let mut granted = List::new(alloc);
    for (name, grade) in parts.as_slice() {
        push_live(&mut granted, name, *grade)?;
    }
    Ok(granted)
}

/// Appends a name, if it is granted.
fn push_live(granted: &mut List<(Name, bool)>, name: &Name, grade: Grade) -> Result<(), OutOfMemory>
    ensures { let member = live_member name.now grade in
        OnOk result (granted.new ≡ granted.old ++ option_to_list member) }
{
    if grade.is_granting() {
        granted.push((name.copy()?, grade.is_write()))?;
    }
    Ok(())
}

/// The built-in module, as far as keys grant it.
pub fn builtins_of_keys(
    alloc: Global,
    keys: &List<(Name, Grade)>,
) -> Result<List<(Name, Grant)>, OutOfMemory>
    ensures { IfOk result (λ grants. grants ≡ builtins_of keys.now) }
{
    let firsts = firsts_of(alloc, keys)?;
    let whole = grade_at(&firsts, HostObject::Fs.name());
    let grant = builtin_grant_of(alloc, keys, whole)?;
    list_of_builtin(alloc, grant)
}

/// What is granted of the built-in module.
fn builtin_grant_of(
    alloc: Global,
    keys: &List<(Name, Grade)>,
    whole: Option<Grade>,
) -> Result<Option<Grant>, OutOfMemory>
    ensures { IfOk result (λ grant. grant ≡ builtin_grant keys.now whole) }
{
    match whole {
        None => Ok(None),
        Some(whole) => {
            let parts = seconds_of(alloc, HostObject::Fs.name(), keys)?;
            host_grant_of(alloc, &parts, HostObject::Fs, whole)
        }
    }
}

/// The list of the built-in modules that are granted.
fn list_of_builtin(alloc: Global, grant: Option<Grant>) -> Result<List<(Name, Grant)>, OutOfMemory>
    ensures { IfOk result (λ grants. grants ≡ builtin_list grant) }
{
    let mut builtins = List::new(alloc);
    if let Some(grant) = grant {
        builtins.push((Name::of(alloc, HostObject::Fs.name())?, grant))?;
    }
    Ok(builtins)
}
