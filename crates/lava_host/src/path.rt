// Paths below the application's folder.

ghost use Rattle.std.specs.Prelude.{◌≡◌, ◌<◌, [], ◌∷◌, length, IfNone, IfSome, Some, None, IfOk, fold, option_map, string_bytes, if◌then◌else◌};
ghost use Rattle.lava_host.specs.Paths.{above, entered, entered_from, is_absolute, parts, names_of_path, path_below};

use lava_base::list::List;
use lava_base::memory::OutOfMemory;
use lava_base::name::Name;
use std::alloc::Global;

/// The path below the application's folder that a path of the program leads to, or nothing where it is absolute or leaves the folder.
pub(crate) fn inner_path(
    alloc: Global,
    dir: &str,
    path: &str,
) -> Result<Option<String>, OutOfMemory>
    ensures { let inner = option_map (path_below dir.now) (names_of_path path.now) in
        IfOk result (λ made. option_map string_bytes made ≡ inner) }
{
    if is_absolute_path(path) {
        return Ok(None);
    }
    match names_of_parts(alloc, path)? {
        None => Ok(None),
        Some(names) => Ok(Some(joined(alloc, dir, &names)?)),
    }
}

/// Whether a path begins at the root of the file system.
fn is_absolute_path(path: &str) -> bool
    ensures { result ≡ is_absolute path.now }
{
    match path.as_bytes() {
        [] => false,
        [first, ..] => *first == b'/',
    }
}

/// The names that the parts of a path lead to, unless they leave the folder.
fn names_of_parts(alloc: Global, path: &str) -> Result<Option<List<Name>>, OutOfMemory>
    ensures { IfOk result (λ names. names ≡ fold entered (Some []) (parts path.now)) }
{
    let mut names = List::new(alloc);
    let mut rest = path;
    while let Some((part, more)) = first_cut(rest) {
        if !enter(alloc, &mut names, part)? {
            return Ok(None);
        }
        rest = more;
    }
    if enter(alloc, &mut names, rest)? {
        Ok(Some(names))
    } else {
        Ok(None)
    }
}

/// The first part of a path and what stands behind its slash, if it has one.
#[tactic(auto, using(crate::proofs::Path_laws::no_slash, crate::proofs::Path_laws::a_slash))]
fn first_cut(path: &str) -> Option<(&str, &str)>
    ensures none { IfNone result (parts path.now ≡ path.now ∷ []) }
    ensures some { IfSome result (λ x. parts path.now ≡ x.0.now ∷ parts x.1.now) }
    ensures shorter { IfSome result (λ x. length x.1.now < length path.now) }
{
    match path.split_once('/') {
        None => None,
        Some((part, more)) => Some((part, more)),
    }
}

/// Goes on by one part, unless it leaves the folder.
fn enter(alloc: Global, names: &mut List<Name>, part: &str) -> Result<bool, OutOfMemory>
    ensures { let after = entered_from names.old part.now in
        IfOk result (λ inside. (if inside then Some names.new else None) ≡ after) }
{
    if part.is_empty() || part == "." {
        return Ok(true);
    }
    if part == ".." {
        return Ok(goes_up(names));
    }
    names.push(Name::of(alloc, part)?)?;
    Ok(true)
}

/// Goes to the directory above, if there is one in the folder.
fn goes_up(names: &mut List<Name>) -> bool
    ensures { (if result then Some names.new else None) ≡ above names.old }
{
    if names.is_empty() {
        return false;
    }
    names.truncate(names.len() - 1);
    true
}

/// The path of these names below a directory.
fn joined(alloc: Global, dir: &str, names: &List<Name>) -> Result<String, OutOfMemory>
    ensures { IfOk result (λ path. string_bytes path ≡ path_below dir.now names.now) }
{
    let mut path = String::from_str(alloc, dir)?;
    for name in names.as_slice() {
        path.push('/')?;
        path.push_str(name.as_str())?;
    }
    Ok(path)
}
