// Entries by name, as a map while they are put together and as a list in byte order.

ghost use Rattle.std.specs.Prelude.{◌≡◌, IfOk, OnOk, IsTrue, string_bytes};
ghost use Rattle.policy_row.specs.Merging.{merged_entries};
ghost use Rattle.policy_row.specs.Rows.{at_name, with_entry, raised, raised_grade, is_in_order, are_kept};
ghost use Rattle.policy_row.specs.Texts.{by_bytes};

use crate::grade::{Grade, Kind};
use lava_base::list::List;
use lava_base::memory::OutOfMemory;
use lava_base::name::Name;
use std::alloc::Global;
use std::collections::BTreeMap;

/// The same entries once more.
pub fn copy_entries(
    alloc: Global,
    entries: &List<(Name, Grade)>,
) -> Result<List<(Name, Grade)>, OutOfMemory>
    ensures { IfOk result (λ copy. copy ≡ entries.now) }
{
    let mut copies = List::new(alloc);
    for (name, grade) in entries.as_slice() {
        copies.push((name.copy()?, *grade))?;
    }
    Ok(copies)
}

/// The override's entries of a kind over those of the policy.
pub fn merge_entries(
    alloc: Global,
    kind: Kind,
    under: &List<(Name, Grade)>,
    over: &List<(Name, Grade)>,
) -> Result<List<(Name, Grade)>, OutOfMemory>
    requires under { IsTrue (are_kept kind under.now) }
    requires over { IsTrue (are_kept kind over.now) }
    ensures merged { IfOk result (λ es. es ≡ merged_entries under.now over.now) }
    ensures kept { IfOk result (λ es. IsTrue (are_kept kind es)) }
{
    let _kind = kind;
    let mut map = BTreeMap::new(alloc);
    put_entries(alloc, &mut map, under)?;
    put_entries(alloc, &mut map, over)?;
    let merged = list_of(alloc, &map)?;
    Ok(merged)
}

/// Puts each entry at its name.
fn put_entries(
    alloc: Global,
    map: &mut BTreeMap<String, Grade>,
    entries: &List<(Name, Grade)>,
) -> Result<(), OutOfMemory>
    ensures { let old = by_bytes map.old.entries in let new = by_bytes map.new.entries in
        OnOk result (new ≡ merged_entries old entries.now) }
{
    for (name, grade) in entries.as_slice() {
        put_entry(map, String::from_str(alloc, name.as_str())?, *grade)?;
    }
    Ok(())
}

/// Puts an entry at its name.
fn put_entry(
    map: &mut BTreeMap<String, Grade>,
    name: String,
    grade: Grade,
) -> Result<(), OutOfMemory>
    ensures { let old = by_bytes map.old.entries in let new = by_bytes map.new.entries in
        OnOk result (new ≡ with_entry old (string_bytes name) grade) }
{
    map.insert(name, grade)?;
    Ok(())
}

/// The entries of a map as a list, in byte order.
pub fn list_of(
    alloc: Global,
    map: &BTreeMap<String, Grade>,
) -> Result<List<(Name, Grade)>, OutOfMemory>
    ensures same { IfOk result (λ es. es ≡ by_bytes map.now.entries) }
    ensures in_order { IfOk result (λ es. IsTrue (is_in_order es)) }
{
    let mut entries = List::new(alloc);
    for (name, grade) in map.iter() {
        entries.push((Name::of(alloc, name.as_str())?, *grade))?;
    }
    Ok(entries)
}

/// Raises the grade at a name to this one where it is less, or absent: `No` is less than `Yes`, and `Yes` than `Write`.
pub fn raise_entry(
    alloc: Global,
    map: &mut BTreeMap<String, Grade>,
    name: &str,
    grade: Grade,
) -> Result<(), OutOfMemory>
    ensures { let old = by_bytes map.old.entries in let new = by_bytes map.new.entries in
        OnOk result (new ≡ raised old name.now grade) }
{
    let grade = greater_if_any(grade_in(map, name), grade);
    let name = String::from_str(alloc, name)?;
    put_entry(map, name, grade)?;
    Ok(())
}

/// The grade at a name, if one is there.
fn grade_in(map: &BTreeMap<String, Grade>, name: &str) -> Option<Grade>
    ensures { result ≡ at_name name.now (by_bytes map.now.entries) }
{
    map.get(name).copied()
}

/// The greater of a grade that may be there and another one.
fn greater_if_any(old: Option<Grade>, grade: Grade) -> Grade
    ensures { result ≡ raised_grade old grade }
{
    match old {
        None => grade,
        Some(old) => old.greater(grade),
    }
}
