// What the keys of a row say together.

ghost use Rattle.std.specs.Prelude.{◌≡◌, IfOk, OnOk, bytes_eq, option_map, if◌then◌else◌};
ghost use Rattle.policy_row.specs.Texts.{by_bytes};
ghost use Rattle.policy_globals.specs.Keys.{first_name, second_name, whole_grade, with_first, firsts, with_second, with_second_name, seconds};

use lava_base::list::List;
use lava_base::memory::OutOfMemory;
use lava_base::name::Name;
use policy_row::entries::{list_of, raise_entry};
use policy_row::grade::Grade;
use std::alloc::Global;
use std::collections::BTreeMap;

/// The first names of keys in byte order, each with the greatest grade of a key that is this name alone.
pub(crate) fn firsts_of(
    alloc: Global,
    keys: &List<(Name, Grade)>,
) -> Result<List<(Name, Grade)>, OutOfMemory>
    ensures { IfOk result (λ es. es ≡ firsts keys.now) }
{
    let mut map = BTreeMap::new(alloc);
    for (key, grade) in keys.as_slice() {
        put_first(alloc, &mut map, key.as_str(), *grade)?;
    }
    let firsts = list_of(alloc, &map)?;
    Ok(firsts)
}

/// Raises the first name of a key to its grade, where the key is that name alone.
fn put_first(
    alloc: Global,
    map: &mut BTreeMap<String, Grade>,
    key: &str,
    grade: Grade,
) -> Result<(), OutOfMemory>
    ensures { let old = by_bytes map.old.entries in let new = by_bytes map.new.entries in
        OnOk result (new ≡ with_first old (key.now, grade)) }
{
    raise_entry(
        alloc,
        map,
        first_of(key),
        grade_of_whole(second_of(key), grade),
    )
}

/// The grade of a key for its first name alone.
fn grade_of_whole(second: Option<&str>, grade: Grade) -> Grade
    ensures { result ≡ whole_grade (option_map (λ name. name.now) second.entry) grade }
{
    match second {
        None => grade,
        Some(_) => Grade::No,
    }
}

/// The second names under a first one in byte order, each with its greatest grade.
pub(crate) fn seconds_of(
    alloc: Global,
    name: &str,
    keys: &List<(Name, Grade)>,
) -> Result<List<(Name, Grade)>, OutOfMemory>
    ensures { IfOk result (λ es. es ≡ seconds name.now keys.now) }
{
    let mut map = BTreeMap::new(alloc);
    for (key, grade) in keys.as_slice() {
        put_second(alloc, &mut map, name, key.as_str(), *grade)?;
    }
    let seconds = list_of(alloc, &map)?;
    Ok(seconds)
}

/// Raises the second name of a key to its grade, where its first name is this one.
fn put_second(
    alloc: Global,
    map: &mut BTreeMap<String, Grade>,
    name: &str,
    key: &str,
    grade: Grade,
) -> Result<(), OutOfMemory>
    ensures { let old = by_bytes map.old.entries in let new = by_bytes map.new.entries in
        OnOk result (new ≡ with_second name.now old (key.now, grade)) }
{
    if first_of(key) == name {
        return put_second_name(alloc, map, second_of(key), grade);
    }
    Ok(())
}

/// Raises a second name, if there is one, to a grade.
fn put_second_name(
    alloc: Global,
    map: &mut BTreeMap<String, Grade>,
    second: Option<&str>,
    grade: Grade,
) -> Result<(), OutOfMemory>
    ensures { let old = by_bytes map.old.entries in let new = by_bytes map.new.entries in
        let second = option_map (λ name. name.now) second.entry in
        OnOk result (new ≡ with_second_name old second grade) }
{
    match second {
        None => Ok(()),
        Some(second) => raise_entry(alloc, map, second, grade),
    }
}

/// What stands before the first point of a key, or the whole key.
pub fn first_of(key: &str) -> &str
    ensures { result.now ≡ first_name key.now }
{
    match key.split_once('.') {
        None => key,
        Some((first, _)) => first,
    }
}

/// What stands between the first point of a key and the next one or its end, if there is a point.
fn second_of(key: &str) -> Option<&str>
    ensures { option_map (λ name. name.now) result ≡ second_name key.now }
{
    match key.split_once('.') {
        None => None,
        Some((_, rest)) => Some(first_of(rest)),
    }
}
