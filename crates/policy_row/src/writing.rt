// Writes a policy as the JSON text of its file.

ghost use Rattle.std.specs.Prelude.{◌≡◌, IfOk, OnOk, IsTrue};
ghost use Rattle.std.specs.List.{list_all};
ghost use Rattle.json.specs.Layout.{pretty};
ghost use Rattle.json.specs.Lex.{tokens};
ghost use Rattle.serde_json.specs.Data.{put, object};
ghost use Rattle.serde_json.specs.View.{view, members_view};
ghost use Rattle.policy_row.specs.declared.fault.PolicyFile.{PolicyFile};
ghost use Rattle.policy_row.specs.Reading.{IsJson};
ghost use Rattle.policy_row.specs.Rows.{are_kept, is_in_order, is_kept};
ghost use Rattle.policy_row.specs.Texts.{by_bytes};
ghost use Rattle.policy_row.specs.Writing.{IsPolicy, grade_data, written, entries_data, put_kind, row_data, policy_data};

use crate::grade::{Grade, Kind};
use crate::policy::Policy;
use crate::reading::{RESOURCES, WRITE};
use crate::row::Row;
use lava_base::list::List;
use lava_base::memory::OutOfMemory;
use lava_base::name::Name;
use serde_json::{Map, Value};
use std::alloc::Global;
use std::collections::BTreeMap;

/// The value of a grade.
fn grade_value(alloc: Global, grade: Grade) -> Result<Value, OutOfMemory>
    ensures { IfOk result (λ v. view v ≡ grade_data grade) }
{
    match grade {
        Grade::No => Ok(Value::Bool(false)),
        Grade::Yes => Ok(Value::Bool(true)),
        Grade::Write => Ok(Value::String(String::from_str(alloc, WRITE)?)),
    }
}

/// Puts a value at a name.
fn put_member(
    alloc: Global,
    members: &mut Map<String, Value>,
    name: &str,
    value: Value,
) -> Result<(), OutOfMemory>
    ensures { let old = members_view members.old.entries in
        OnOk result (members_view members.new.entries ≡ put name.now (view value) old) }
{
    members.insert(String::from_str(alloc, name)?, value)?;
    Ok(())
}

/// The value of the entries of a kind.
fn entries_value(alloc: Global, entries: &List<(Name, Grade)>) -> Result<Value, OutOfMemory>
    requires { IsTrue (is_in_order entries.now) }
    ensures { IfOk result (λ v. view v ≡ entries_data entries.now) }
{
    let mut members = Map::new(alloc);
    for (name, grade) in entries.as_slice() {
        put_member(
            alloc,
            &mut members,
            name.as_str(),
            grade_value(alloc, *grade)?,
        )?;
    }
    Ok(Value::Object(members))
}

/// Puts the entries of a kind at its name, if there are any.
fn put_kind(
    alloc: Global,
    members: &mut Map<String, Value>,
    kind: Kind,
    entries: &List<(Name, Grade)>,
) -> Result<(), OutOfMemory>
    requires { IsTrue (are_kept kind entries.now) }
    ensures { let old = members_view members.old.entries in
        OnOk result (members_view members.new.entries ≡ put_kind kind entries.now old) }
{
    if entries.is_empty() {
        return Ok(());
    }
    put_member(alloc, members, kind.name(), entries_value(alloc, entries)?)
}

/// The value of a row.
fn row_value(alloc: Global, row: &Row) -> Result<Value, OutOfMemory>
    requires { IsTrue (is_kept row.now) }
    ensures { IfOk result (λ v. view v ≡ row_data row.now) }
{
    let mut members = Map::new(alloc);
    put_kind(alloc, &mut members, Kind::Packages, &row.packages)?;
    put_kind(alloc, &mut members, Kind::Globals, &row.globals)?;
    put_kind(alloc, &mut members, Kind::Builtin, &row.builtin)?;
    Ok(Value::Object(members))
}

/// The value of the rows.
fn rows_value(alloc: Global, rows: &BTreeMap<String, Row>) -> Result<Value, OutOfMemory>
    requires { IsTrue (list_all (λ e. is_kept e.1) rows.now.entries) }
    ensures { let rows = by_bytes rows.now.entries in
        IfOk result (λ v. view v ≡ object (written row_data rows)) }
{
    let mut members = Map::new(alloc);
    for (name, row) in rows.iter() {
        put_member(alloc, &mut members, name.as_str(), row_value(alloc, row)?)?;
    }
    Ok(Value::Object(members))
}

/// The value of a policy with these rows.
fn policy_value(alloc: Global, rows: &BTreeMap<String, Row>) -> Result<Value, OutOfMemory>
    requires { IsTrue (list_all (λ e. is_kept e.1) rows.now.entries) }
    ensures { IfOk result (λ v. view v ≡ policy_data (by_bytes rows.now.entries)) }
{
    let mut members = Map::new(alloc);
    put_member(alloc, &mut members, RESOURCES, rows_value(alloc, rows)?)?;
    Ok(Value::Object(members))
}

/// Writes the text of a policy's file, as `serde_json` lays JSON out: a file of these bytes is read as this policy. Rows, kinds and entries stand in byte order, and a kind without an entry is left out. No line feed stands at the end.
pub fn write_policy(alloc: Global, policy: &Policy) -> Result<List<u8>, OutOfMemory>
    ensures layout { IfOk result (λ bytes. bytes ≡ pretty (tokens bytes)) }
    ensures writes { IfOk result (λ bytes. IsJson bytes (policy_data policy.now)) }
    ensures reads { IfOk result (λ bytes. (file : PolicyFile) → IsPolicy file bytes policy.now) }
{
    let value = policy_value(alloc, &policy.rows)?;
    Ok(List::from_vec(value.to_vec_pretty(alloc)?))
}
