// The paths of the functions of a prelude.

ghost use Rattle.std.specs.Prelude.{◌≡◌, ◌<◌, length, codes, Some, IfOk, IfSome};
ghost use Rattle.std.specs.Option.{option_copied};
ghost use Rattle.js_text.specs.CommonPaths.{IsPathOf};
ghost use Rattle.js_text.specs.Texts.{utf8_of};
ghost use Rattle.ses_prelude.specs.Paths as spec;

use js_text::common::common_id;
use js_text::text::Text;
use lava_base::list::List;
use lava_base::memory::OutOfMemory;
use lava_base::name::Name;
use std::alloc::Global;

/// `_`, which stands between the parts of a name.
pub const LOW_LINE: u8 = b'_';

/// `.`, which stands between the parts of a path.
pub const FULL_STOP: u8 = b'.';

/// What is left of a text behind a word that it begins with.
fn behind<'a>(mut word: &[u8], text: &'a [u8]) -> Option<&'a [u8]>
    ensures { option_copied result ≡ spec.behind word.entry.now text.now }
{
    let mut rest = text;
    while let [first, more @ ..] = word {
        match rest {
            [unit, left @ ..] if *unit == *first => rest = left,
            _ => return None,
        }
        word = more;
    }
    Some(rest)
}

/// The place of the last `_` of a name.
fn last_line(name: &[u8]) -> Option<usize>
    ensures place { result ≡ spec.last_line (length name.now) name.now }
    ensures within { IfSome result (λ at. at < length name.now) }
{
    let mut at = name.len();
    while at > 0 {
        at -= 1;
        if name[at] == LOW_LINE {
            return Some(at);
        }
    }
    None
}

/// A unit of a path.
fn dot(unit: u8) -> u8
    ensures { result ≡ spec.dot unit }
{
    if unit == LOW_LINE { FULL_STOP } else { unit }
}

/// A name whose parts are parted by `.`.
fn dotted(alloc: Global, name: &[u8]) -> Result<List<u8>, OutOfMemory>
    ensures { IfOk result (λ path. path ≡ spec.dotted name.now) }
{
    let mut path = List::new(alloc);
    for unit in name {
        path.push(dot(*unit))?;
    }
    Ok(path)
}

/// A path of four parts, one of them with `.` for `_`.
fn joined(
    alloc: Global,
    first: &[u8],
    owner: &[u8],
    between: &[u8],
    last: &[u8],
) -> Result<List<u8>, OutOfMemory>
    ensures { IfOk result (λ path.
        path ≡ spec.joined first.now owner.now between.now last.now) }
{
    let mut path = List::new(alloc);
    path.extend_from_slice(first)?;
    path.extend_from_slice(dotted(alloc, owner)?.as_slice())?;
    path.extend_from_slice(between)?;
    path.extend_from_slice(last)?;
    Ok(path)
}

/// The path of a getter, or of a property that the last part names.
fn getter_path(alloc: Global, owner: &[u8], last: &[u8]) -> Result<List<u8>, OutOfMemory>
    ensures { let key = spec.behind (codes "get$") last.now in
        IfOk result (λ path. path ≡ spec.getter_path owner.now last.now key) }
{
    match behind(b"get$", last) {
        Some(key) => joined(alloc, b"get ", owner, b".", key),
        None => joined(alloc, b"", owner, b".", last),
    }
}

/// The path of a property of an object by the last part of its name.
fn property_path(alloc: Global, owner: &[u8], last: &[u8]) -> Result<List<u8>, OutOfMemory>
    ensures { IfOk result (λ path. path ≡ spec.property_path owner.now last.now) }
{
    match behind(b"iterator$", last) {
        Some([]) => joined(alloc, b"", owner, b"", b"[Symbol.iterator]"),
        _ => getter_path(alloc, owner, last),
    }
}

/// A list of these bytes.
fn bytes_of(alloc: Global, name: &[u8]) -> Result<List<u8>, OutOfMemory>
    ensures { IfOk result (λ bytes. bytes ≡ name.now) }
{
    let mut bytes = List::new(alloc);
    bytes.extend_from_slice(name)?;
    Ok(bytes)
}

/// The path of a name whose parts are parted by `_`.
fn path_parted(alloc: Global, name: &[u8]) -> Result<List<u8>, OutOfMemory>
    ensures { let line = spec.last_line (length name.now) name.now in
        IfOk result (λ path. path ≡ spec.path_parted name.now line) }
{
    match last_line(name) {
        None => bytes_of(alloc, name),
        Some(at) => property_path(alloc, &name[..at], &name[at + 1..]),
    }
}

/// Whether a name is a helper's.
fn is_helper(name: &[u8]) -> bool
    ensures { result ≡ spec.is_helper name.now }
{
    match name {
        [] => false,
        [first, ..] => *first == LOW_LINE,
    }
}

/// The path of a function's common object, in bytes.
fn path_bytes(alloc: Global, name: &[u8]) -> Result<List<u8>, OutOfMemory>
    ensures { IfOk result (λ path. path ≡ spec.path_of name.now) }
{
    if is_helper(name) {
        bytes_of(alloc, name)
    } else {
        path_parted(alloc, name)
    }
}

/// Bytes as a name.
fn name_of(alloc: Global, bytes: &[u8]) -> Result<Name, OutOfMemory>
    ensures { IfOk result (λ name. name ≡ bytes.now) }
{
    match str::from_utf8(bytes) {
        Ok(name) => Name::of(alloc, name),
        Err(_) => Err(OutOfMemory),
    }
}

/// The path of a function's common object by its name.
pub(crate) fn path_of(alloc: Global, name: &Text) -> Result<Name, OutOfMemory>
    ensures { IfOk result (λ path. path ≡ spec.path_of (utf8_of name.now)) }
{
    let mut bytes = List::new(alloc);
    name.write_utf8(&mut bytes)?;
    let path = path_bytes(alloc, bytes.as_slice())?;
    name_of(alloc, path.as_slice())
}

/// The place of the common object with a path.
pub(crate) fn place_of(path: &str) -> Option<u32>
    ensures place { result ≡ spec.place_of path.now }
    ensures path { IfSome result (λ place. IsPathOf path.now place) }
{
    match common_id(path) {
        None => None,
        Some(id) => Some(id.0),
    }
}
