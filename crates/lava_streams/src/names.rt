// The names that stand directly in a directory.

ghost use Rattle.std.specs.Prelude.{◌≡◌, ◌≢◌, ◌==◌, ◌≤◌, ◌++◌, ◌∷◌, ℕ, List as Listed, length, insert, IfOk, OnOk, MatchOption, option_copied};
ghost use Rattle.std.specs.List.{before_first};
ghost use Rattle.lava_streams.specs.Files.{name_in, names_in, with_name, in_order};
ghost use Rattle.lava_streams.specs.Steps.{with_name_of};

use lava_base::list::List;
use lava_base::memory::OutOfMemory;
use lava_base::name::Name;
use std::alloc::Global;
use std::cmp::Ordering;

/// The names that the files' paths have directly in a directory, each once, in byte order.
pub fn names_directly_in(
    alloc: Global,
    files: &[(Name, List<u8>)],
    dir: &str,
) -> Result<Vec<Name>, OutOfMemory>
    ensures { IfOk result (λ names. names.items ≡ in_order (names_in files.now dir.now)) }
{
    let mut names = Vec::new(alloc);
    for file in files {
        add_name(alloc, &mut names, dir, file.0.as_str())?;
    }
    Ok(names)
}

// Adds the name that a path has directly in the directory, if it has one that is not there yet.
fn add_name(alloc: Global, names: &mut Vec<Name>, dir: &str, path: &str) -> Result<(), OutOfMemory>
    ensures { let name = name_in dir.now path.now in
        OnOk result (names.new.items ≡ with_name_of names.old.items name) }
{
    if let Some(name) = direct_name(dir, path) {
        if let Some(at) = vacant_place(names.as_slice(), name) {
            names.insert(at, Name::of(alloc, name)?)?;
        }
    }
    Ok(())
}

// The name that a path has directly in a directory.
fn direct_name<'a>(dir: &str, path: &'a str) -> Option<&'a str>
    ensures { option_copied result ≡ name_in dir.now path.now }
{
    match below(dir, path) {
        Some(rest) => Some(first_part(rest)),
        None => None,
    }
}

// What stands in a path behind a directory and a `/`.
fn below<'a>(dir: &str, path: &'a str) -> Option<&'a str>
    ensures { let no_path = (rest : Listed ℕ) → path.now ≢ dir.now ++ 47 ∷ rest in
        MatchOption result no_path (λ rest. path.now ≡ dir.now ++ 47 ∷ rest.now) }
{
    match path.strip_prefix(dir) {
        Some(rest) => rest.strip_prefix('/'),
        None => None,
    }
}

// What stands before the first `/`, or all.
fn first_part(path: &str) -> &str
    ensures { result.now ≡ before_first (λ b. b == 47) path.now }
{
    match path.split_once('/') {
        Some((part, _)) => part,
        None => path,
    }
}

// Where a name belongs among names in byte order, unless it stands there already.
fn vacant_place(names: &[Name], name: &str) -> Option<usize>
    ensures { let more = with_name names.now name.now in
        MatchOption result (more ≡ names.now)
        (λ at. (at ≤ length names.now) × (more ≡ insert names.now at name.now)) }
{
    for (at, other) in names.iter().enumerate() {
        match name.cmp(other.as_str()) {
            Ordering::Less => return Some(at),
            Ordering::Equal => return None,
            Ordering::Greater => {}
        }
    }
    Some(names.len())
}
