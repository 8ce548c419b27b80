// Reads a policy from the bytes of its file.

ghost use Rattle.std.specs.Prelude.{◌≡◌, IfOk, IfErr, IsTrue, [], option_map, string_bytes};
ghost use Rattle.policy_row.specs.declared.fault.PolicyFault.TheVariants.{Bad};
ghost use Rattle.policy_row.specs.declared.fault.PolicyWhat.TheVariants.{Json};
ghost use Rattle.serde_json.specs.Data.{Data};
ghost use Rattle.serde_json.specs.Find.{get_member};
ghost use Rattle.serde_json.specs.View.{view, members_view};
ghost use Rattle.policy_row.specs.Names.{kind_name};
ghost use Rattle.policy_row.specs.Reading.{Answers, IsJson, IsRefused, Tells, grade_of, text_grade, entry_key, entries_in, entries_of, kind_in, row_in, row_of, rows_in, rows_of, resources_in, policy_of, bad_value};
ghost use Rattle.policy_row.specs.Rows.{are_kept, is_kept};
ghost use Rattle.serde_json.specs.Find.{as_object};

use crate::fault::{PolicyFault, PolicyFile, PolicyWhat};
use crate::grade::{Grade, Kind};
use crate::policy::Policy;
use crate::row::Row;
use lava_base::list::List;
use lava_base::memory::OutOfMemory;
use lava_base::name::Name;
use serde_json::{Map, Value};
use std::alloc::Global;

/// The key under which the rows stand.
pub const RESOURCES: &str = "resources";
/// The text that grants writing.
pub const WRITE: &str = "write";

/// Reads the policy that a file of these bytes is.
///
/// It is `Bad` exactly where the bytes are not JSON as `serde_json` reads it, or a value is none of those that may stand there: the first in byte order, by row, then kind, then key. Keys besides those of the policy are passed over.
pub fn read_policy(alloc: Global, file: PolicyFile, bytes: &[u8]) -> Result<Policy, PolicyFault>
    ensures ok { IfOk result (λ p. (d : Data) × IsJson bytes.now d × (policy_of file d ≡ Ok p)) }
    ensures bad { IfErr result (λ fault. IsRefused file bytes.now fault) }
{
    match Value::from_slice(alloc, bytes) {
        Ok(value) => policy_in(alloc, file, &value),
        Err(error) => {
            if error.is_memory() {
                Err(PolicyFault::OutOfMemory)
            } else {
                Err(no_json(alloc, file))
            }
        }
    }
}

/// The refusal of a file that is no JSON.
fn no_json(alloc: Global, file: PolicyFile) -> PolicyFault
    ensures { Tells result (Bad file [] [] Json) }
{
    match (Name::of(alloc, ""), Name::of(alloc, "")) {
        (Ok(row), Ok(key)) => PolicyFault::Bad {
            file,
            row,
            key,
            what: PolicyWhat::Json,
        },
        _ => PolicyFault::OutOfMemory,
    }
}

/// The refusal of a value in a row at a key.
fn bad_value_at(alloc: Global, file: PolicyFile, row: &str, key: &str) -> PolicyFault
    ensures { Tells result (bad_value file row.now key.now) }
{
    match (Name::of(alloc, row), Name::of(alloc, key)) {
        (Ok(row), Ok(key)) => PolicyFault::Bad {
            file,
            row,
            key,
            what: PolicyWhat::Value,
        },
        _ => PolicyFault::OutOfMemory,
    }
}

/// The policy that a JSON value is.
fn policy_in(alloc: Global, file: PolicyFile, value: &Value) -> Result<Policy, PolicyFault>
    ensures { Answers result (policy_of file (view value.now)) }
{
    match value.as_object() {
        None => Err(bad_value_at(alloc, file, "", "")),
        Some(members) => policy_at(alloc, file, found(members, RESOURCES)),
    }
}

/// The policy of the rows that stand there, if they do.
fn policy_at(
    alloc: Global,
    file: PolicyFile,
    resources: Option<&Value>,
) -> Result<Policy, PolicyFault>
    ensures { let resources = option_map (λ v. view v.now) resources.entry in
        Answers result (resources_in file resources) }
{
    match resources {
        None => Ok(Policy::new(alloc)),
        Some(value) => match value.as_object() {
            None => Err(bad_value_at(alloc, file, "", "")),
            Some(rows) => rows_of_members(alloc, file, rows),
        },
    }
}

/// The member of a name, if it is there.
fn found<'a>(members: &'a Map<String, Value>, name: &str) -> Option<&'a Value>
    ensures { let members = members_view members.now.entries in
        option_map (λ v. view v.now) result ≡ get_member name.now members }
{
    members.get(name)
}

/// The rows that members are.
fn rows_of_members(
    alloc: Global,
    file: PolicyFile,
    members: &Map<String, Value>,
) -> Result<Policy, PolicyFault>
    ensures { Answers result (rows_in file (members_view members.now.entries)) }
{
    let mut policy = Policy::new(alloc);
    for (name, value) in members.iter() {
        let row = row_of_value(alloc, file, name.as_str(), value)?;
        policy.put(alloc, name.as_str(), row)?;
    }
    Ok(policy)
}

/// The row that a value is.
fn row_of_value(
    alloc: Global,
    file: PolicyFile,
    name: &str,
    value: &Value,
) -> Result<Row, PolicyFault>
    ensures row { Answers result (row_of file name.now (view value.now)) }
    ensures kept { IfOk result (λ row. IsTrue (is_kept row)) }
{
    match value.as_object() {
        None => Err(bad_value_at(alloc, file, name, "")),
        Some(members) => row_of_members(alloc, file, name, members),
    }
}

/// The row that members are.
fn row_of_members(
    alloc: Global,
    file: PolicyFile,
    name: &str,
    members: &Map<String, Value>,
) -> Result<Row, PolicyFault>
    ensures row { Answers result (row_in file name.now (members_view members.now.entries)) }
    ensures kept { IfOk result (λ row. IsTrue (is_kept row)) }
{
    let builtin = kind_of_members(alloc, file, name, Kind::Builtin, members)?;
    let globals = kind_of_members(alloc, file, name, Kind::Globals, members)?;
    let packages = kind_of_members(alloc, file, name, Kind::Packages, members)?;
    Ok(Row {
        globals,
        builtin,
        packages,
    })
}

/// The entries of a kind among the members of a row.
fn kind_of_members(
    alloc: Global,
    file: PolicyFile,
    row: &str,
    kind: Kind,
    members: &Map<String, Value>,
) -> Result<List<(Name, Grade)>, PolicyFault>
    ensures entries { let value = get_member (kind_name kind) (members_view members.now.entries) in
        Answers result (kind_in file row.now kind value) }
    ensures kept { IfOk result (λ es. IsTrue (are_kept kind es)) }
{
    match found(members, kind.name()) {
        None => Ok(List::new(alloc)),
        Some(value) => entries_of_value(alloc, file, row, kind, value),
    }
}

/// The entries that a value of a kind is.
fn entries_of_value(
    alloc: Global,
    file: PolicyFile,
    row: &str,
    kind: Kind,
    value: &Value,
) -> Result<List<(Name, Grade)>, PolicyFault>
    ensures entries { Answers result (entries_of file row.now kind (as_object (view value.now))) }
    ensures kept { IfOk result (λ es. IsTrue (are_kept kind es)) }
{
    match value.as_object() {
        None => Err(bad_value_at(alloc, file, row, kind.name())),
        Some(members) => entries_of_members(alloc, file, row, kind, members),
    }
}

/// The entries that members are.
fn entries_of_members(
    alloc: Global,
    file: PolicyFile,
    row: &str,
    kind: Kind,
    members: &Map<String, Value>,
) -> Result<List<(Name, Grade)>, PolicyFault>
    ensures entries { let members = members_view members.now.entries in
        Answers result (entries_in file row.now kind members) }
    ensures kept { IfOk result (λ es. IsTrue (are_kept kind es)) }
{
    let mut entries = List::new(alloc);
    for (key, value) in members.iter() {
        match grade_of_value(kind, value) {
            None => return Err(bad_entry_at(alloc, file, row, kind, key.as_str())),
            Some(grade) => entries.push((Name::of(alloc, key.as_str())?, grade))?,
        }
    }
    Ok(entries)
}

/// The refusal of an entry's value.
fn bad_entry_at(alloc: Global, file: PolicyFile, row: &str, kind: Kind, key: &str) -> PolicyFault
    ensures { let key = entry_key kind key.now in
        Tells result (bad_value file row.now key) }
{
    match entry_name(alloc, kind, key) {
        Ok(key) => bad_value_at(alloc, file, row, key.as_str()),
        Err(_) => PolicyFault::OutOfMemory,
    }
}

/// A kind, a point and a key.
fn entry_name(alloc: Global, kind: Kind, key: &str) -> Result<String, OutOfMemory>
    ensures { IfOk result (λ name. string_bytes name ≡ entry_key kind key.now) }
{
    let mut name = String::from_str(alloc, kind.name())?;
    name.push('.')?;
    name.push_str(key)?;
    Ok(name)
}

/// What the value of an entry says, if it may stand there.
fn grade_of_value(kind: Kind, value: &Value) -> Option<Grade>
    ensures { result ≡ grade_of kind (view value.now) }
{
    match value {
        Value::Bool(true) => Some(Grade::Yes),
        Value::Bool(false) => Some(Grade::No),
        Value::String(text) => grade_of_text(kind, text.as_str()),
        _ => None,
    }
}

/// What a text of an entry says, if it may stand there.
fn grade_of_text(kind: Kind, text: &str) -> Option<Grade>
    ensures { result ≡ text_grade kind text.now }
{
    match kind {
        Kind::Globals => {
            if text == WRITE {
                Some(Grade::Write)
            } else {
                None
            }
        }
        Kind::Builtin | Kind::Packages => None,
    }
}
