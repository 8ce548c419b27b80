// Which keys a row keeps.

ghost use Rattle.std.specs.Prelude.{◌≡◌, IfOk, OnOk, IsTrue};
ghost use Rattle.policy_row.specs.Rows.{are_kept};
ghost use Rattle.policy_row.specs.declared.grade.Kind.TheVariants.{Globals};
ghost use Rattle.policy_gen.specs.Kept.{kept_key, with_kept, kept_keys};

use crate::grades::Grades;
use lava_base::list::List;
use lava_base::memory::OutOfMemory;
use lava_base::name::Name;
use policy_globals::keys::first_of;
use policy_row::grade::Grade;
use std::alloc::Global;

/// The key that stands for this one.
fn kept_key<'a>(keys: &Grades, key: &'a str) -> &'a str
    ensures { result.now ≡ kept_key keys.now key.now }
{
    let first = first_of(key);
    if keys.has(first) { first } else { key }
}

/// Raises the key that stands for one.
fn keep(
    alloc: Global,
    keys: &Grades,
    kept: &mut Grades,
    key: &str,
    grade: Grade,
) -> Result<(), OutOfMemory>
    ensures { OnOk result (kept.new ≡ with_kept keys.now kept.old (key.now, grade)) }
{
    kept.raise(alloc, kept_key(keys, key), grade)
}

/// The keys of which no proper prefix is used, in byte order, each with the greatest grade of those that it stands for.
pub(crate) fn kept_keys(alloc: Global, keys: &Grades) -> Result<List<(Name, Grade)>, OutOfMemory>
    ensures same { IfOk result (λ es. es ≡ kept_keys keys.now) }
    ensures kept { IfOk result (λ es. IsTrue (are_kept Globals es)) }
{
    let all = keys.list(alloc)?;
    let mut kept = Grades::new(alloc);
    for (key, grade) in all.as_slice() {
        keep(alloc, keys, &mut kept, key.as_str(), *grade)?;
    }
    let entries = kept.list(alloc)?;
    Ok(entries)
}
