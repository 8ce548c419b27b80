// What a request names: the parts of a path, the modules that it may mean, links, and the texts of errors.

ghost use Rattle.std.specs.Prelude.{◌≡◌, ◌++◌, ◌≤◌, IfOk, length, option_map, Some};
ghost use Rattle.std.specs.Option.{option_and_then};
ghost use Rattle.js_text.specs.Texts.{same_units};
ghost use Rattle.js_machine.specs.js_run.Requests.{candidates, directory_of, goes_by, is_builtin, is_dots, is_link, is_scope, joined_parts, link_of, not_allowed_text, not_found_text, parts_of, up, walked, whole_request, first_part};
ghost use Rattle.js_machine.specs.Requested.{link_parts};

use js_machine::requests::text_of;
use js_text::text::Text;
use lava_base::list::List;
use lava_base::memory::OutOfMemory;
use std::alloc::Global;
use std::mem;

/// The unit between two parts of a path.
const SLASH: u16 = 47;

/// The unit that begins the name of a scope.
const AT: u16 = 64;

/// The part of a path that stays where it is.
static HERE: [u16; 1] = [46];

/// The part of a path that goes up.
static ABOVE: [u16; 2] = [46, 46];

/// The main module of a directory.
static INDEX: [u16; 8] = [105, 110, 100, 101, 120, 46, 106, 115];

/// What a path ends with that means a module.
static SCRIPT: [u16; 3] = [46, 106, 115];

/// What a path ends with that means a module of JSON.
static JSON: [u16; 5] = [46, 106, 115, 111, 110];

/// What a path ends with that means the main module of a directory.
static DIRECTORY: [u16; 9] = [47, 105, 110, 100, 101, 120, 46, 106, 115];

/// The builtin.
static FS: [u16; 2] = [102, 115];

/// The builtin, by its other name.
static NODE_FS: [u16; 7] = [110, 111, 100, 101, 58, 102, 115];

/// What stands before a request that names nothing.
static NOT_FOUND: [u16; 20] = [
    67, 97, 110, 110, 111, 116, 32, 102, 105, 110, 100, 32, 109, 111, 100, 117, 108, 101, 32, 39,
];

/// What stands behind a request that names nothing.
static NOT_FOUND_END: [u16; 1] = [39];

/// What stands before the name of a package that may not ask.
static NOT_ALLOWED: [u16; 33] = [
    76, 97, 118, 97, 77, 111, 97, 116, 32, 45, 32, 110, 111, 116, 32, 97, 108, 108, 111, 119, 101,
    100, 58, 32, 112, 97, 99, 107, 97, 103, 101, 32, 34,
];

/// What stands between the name of a package and its request.
static REQUESTS: [u16; 12] = [34, 32, 114, 101, 113, 117, 101, 115, 116, 115, 32, 34];

/// What stands behind a request that is not allowed.
static NOT_ALLOWED_END: [u16; 1] = [34];

/// Whether two texts have the same units.
fn is_same(one: &[u16], other: &[u16]) -> bool
    ensures { result ≡ same_units one.now other.now }
{
    one == other
}

/// The same units once more.
fn copy_of(alloc: Global, units: &[u16]) -> Result<List<u16>, OutOfMemory>
    ensures { IfOk result (λ copy. copy ≡ units.now) }
{
    let mut copy = List::new(alloc);
    copy.extend_from_slice(units)?;
    Ok(copy)
}

/// The parts of a path between its slashes.
pub fn parts_of(alloc: Global, path: &[u16]) -> Result<List<List<u16>>, OutOfMemory>
    ensures { IfOk result (λ parts. parts ≡ parts_of path.now) }
{
    let mut parts = List::new(alloc);
    let mut begun = List::new(alloc);
    for unit in path {
        if *unit == SLASH {
            parts.push(mem::replace(&mut begun, List::new(alloc)))?;
        } else {
            begun.push(*unit)?;
        }
    }
    parts.push(begun)?;
    Ok(parts)
}

/// The path of parts.
pub fn joined_parts(alloc: Global, parts: &[List<u16>]) -> Result<List<u16>, OutOfMemory>
    ensures { IfOk result (λ path. path ≡ joined_parts parts.now) }
{
    let mut path = List::new(alloc);
    let mut first = true;
    for part in parts {
        if !first {
            path.push(SLASH)?;
        }
        first = false;
        path.extend_from_slice(part.as_slice())?;
    }
    Ok(path)
}

/// One directory up, which the package's own directory has not.
#[tactic(auto, using(crate::proofs::Requested::went_up))]
fn up(dir: List<List<u16>>) -> Option<List<List<u16>>>
    ensures { result ≡ up dir }
{
    let count = dir.len();
    if count == 0 {
        return None;
    }
    let mut dir = dir;
    dir.truncate(count - 1);
    Some(dir)
}

/// Where a part of a path leads from a directory, if that is in the package.
fn goes_by(
    alloc: Global,
    part: &[u16],
    dir: List<List<u16>>,
) -> Result<Option<List<List<u16>>>, OutOfMemory>
    ensures { IfOk result (λ there. there ≡ goes_by part.now dir) }
{
    if is_same(part, &[]) || is_same(part, &HERE) {
        return Ok(Some(dir));
    }
    if is_same(part, &ABOVE) {
        return Ok(up(dir));
    }
    let mut dir = dir;
    dir.push(copy_of(alloc, part)?)?;
    Ok(Some(dir))
}

/// Where a part of a path leads on, if that is in the package.
fn goes_on_by(
    alloc: Global,
    part: &[u16],
    dir: Option<List<List<u16>>>,
) -> Result<Option<List<List<u16>>>, OutOfMemory>
    ensures { IfOk result (λ there. there ≡ option_and_then (goes_by part.now) dir) }
{
    match dir {
        Some(dir) => goes_by(alloc, part, dir),
        None => Ok(None),
    }
}

/// Where the parts of a path lead from a directory, if that is in the package.
fn walked(
    alloc: Global,
    parts: &[List<u16>],
    start: List<List<u16>>,
) -> Result<Option<List<List<u16>>>, OutOfMemory>
    ensures { IfOk result (λ there. there ≡ walked parts.now (Some start)) }
{
    let mut dir = Some(start);
    for part in parts {
        dir = goes_on_by(alloc, part.as_slice(), dir)?;
    }
    Ok(dir)
}

/// The directory of a module.
#[tactic(auto, using(crate::proofs::Requested::taken_but_last))]
pub fn directory_of(alloc: Global, path: &[u16]) -> Result<List<List<u16>>, OutOfMemory>
    ensures { IfOk result (λ dir. dir ≡ directory_of path.now) }
{
    let mut parts = parts_of(alloc, path)?;
    let count = parts.len();
    parts.truncate(count.saturating_sub(1));
    Ok(parts)
}

/// The path that a path means from a directory, if that is in the package.
pub fn resolved(
    alloc: Global,
    dir: List<List<u16>>,
    path: &[u16],
) -> Result<Option<List<u16>>, OutOfMemory>
    ensures { IfOk result (λ there. there ≡ option_map joined_parts
        (walked (parts_of path.now) (Some dir))) }
{
    let parts = parts_of(alloc, path)?;
    match walked(alloc, parts.as_slice(), dir)? {
        Some(there) => Ok(Some(joined_parts(alloc, there.as_slice())?)),
        None => Ok(None),
    }
}

/// A path with more at its end.
fn ended(alloc: Global, path: &[u16], end: &[u16]) -> Result<Text, OutOfMemory>
    ensures { IfOk result (λ text. text ≡ path.now ++ end.now) }
{
    let mut units = copy_of(alloc, path)?;
    units.extend_from_slice(end)?;
    text_of(alloc, units.as_slice())
}

/// The paths that are tried for a path, in order.
pub fn candidates(alloc: Global, path: &[u16]) -> Result<List<Text>, OutOfMemory>
    ensures { IfOk result (λ paths. paths ≡ candidates path.now) }
{
    let mut paths = List::new(alloc);
    if path.is_empty() {
        paths.push(text_of(alloc, &INDEX)?)?;
        return Ok(paths);
    }
    paths.push(text_of(alloc, path)?)?;
    paths.push(ended(alloc, path, &SCRIPT)?)?;
    paths.push(ended(alloc, path, &JSON)?)?;
    paths.push(ended(alloc, path, &DIRECTORY)?)?;
    Ok(paths)
}

/// Whether the first part of a path says that it is relative.
pub fn is_relative(parts: &[List<u16>]) -> bool
    ensures { result ≡ is_dots (first_part parts.now) }
{
    match parts.first() {
        None => false,
        Some(part) => is_same(part.as_slice(), &HERE) || is_same(part.as_slice(), &ABOVE),
    }
}

/// Whether a request is for the builtin.
pub fn is_builtin(request: &[u16]) -> bool
    ensures { result ≡ is_builtin request.now }
{
    is_same(request, &FS) || is_same(request, &NODE_FS)
}

/// Whether a part is the scope of a name.
fn is_scope(part: &[u16]) -> bool
    ensures { result ≡ is_scope part.now }
{
    match part.first() {
        None => false,
        Some(unit) => *unit == AT,
    }
}

/// How many parts of a request name the dependency.
fn link_parts(parts: &[List<u16>]) -> usize
    ensures count { result ≡ link_parts parts.now }
    ensures within { result ≤ length parts.now }
{
    if parts.len() > 1 && is_scope(parts[0].as_slice()) {
        return 2;
    }
    if parts.is_empty() {
        return 0;
    }
    1
}

/// The dependency name of a request, and the path after it.
pub fn link_of(alloc: Global, parts: &[List<u16>]) -> Result<(Text, Text), OutOfMemory>
    ensures { IfOk result (λ there. there ≡ link_of parts.now) }
{
    let count = link_parts(parts);
    let link = joined_parts(alloc, &parts[..count])?;
    let path = joined_parts(alloc, &parts[count..])?;
    Ok((
        text_of(alloc, link.as_slice())?,
        text_of(alloc, path.as_slice())?,
    ))
}

/// Whether it is one of the links.
pub fn is_link(link: &Text, links: &[Text]) -> bool
    ensures { result ≡ is_link link.now links.now }
{
    for other in links {
        if link.is_same(other) {
            return true;
        }
    }
    false
}

/// The text on a request that names nothing.
pub fn not_found_text(alloc: Global, request: &[u16]) -> Result<List<u16>, OutOfMemory>
    ensures { IfOk result (λ text. text ≡ not_found_text request.now) }
{
    let mut text = copy_of(alloc, &NOT_FOUND)?;
    text.extend_from_slice(request)?;
    text.extend_from_slice(&NOT_FOUND_END)?;
    Ok(text)
}

/// The text on a request that is not allowed.
pub fn not_allowed_text(
    alloc: Global,
    name: &[u16],
    request: &[u16],
) -> Result<List<u16>, OutOfMemory>
    ensures { IfOk result (λ text. text ≡ not_allowed_text name.now request.now) }
{
    let mut text = copy_of(alloc, &NOT_ALLOWED)?;
    text.extend_from_slice(name)?;
    text.extend_from_slice(&REQUESTS)?;
    text.extend_from_slice(request)?;
    text.extend_from_slice(&NOT_ALLOWED_END)?;
    Ok(text)
}

/// A link and a path in the linked package as one request.
pub fn whole_request(alloc: Global, link: &[u16], path: &[u16]) -> Result<List<u16>, OutOfMemory>
    ensures { IfOk result (λ request. request ≡ whole_request link.now path.now) }
{
    let mut request = copy_of(alloc, link)?;
    if !path.is_empty() {
        request.push(SLASH)?;
        request.extend_from_slice(path)?;
    }
    Ok(request)
}
