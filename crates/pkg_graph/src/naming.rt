// The canonical names of packages, by one pass over their links.

ghost use Rattle.std.specs.Prelude.{◌≡◌, ◌-◌, ◌∷◌, [], IfOk, OnOk, get_or, replicate};
ghost use Rattle.pkg_graph.specs.Naming.{longer, depth, is_earlier, replaces, named_as, named_by, named_by_all, names_by};

use crate::limits::APPLICATION_NAME;
use crate::link::Link;
use lava_base::list::List;
use lava_base::memory::OutOfMemory;
use lava_base::name::Name;
use std::alloc::Global;

/// The text of a dependency path that is one name longer.
fn longer(alloc: Global, from: &str, name: &str) -> Result<Name, OutOfMemory>
    ensures { IfOk result (λ text. text ≡ longer from.now name.now) }
{
    if from == APPLICATION_NAME {
        return Name::of(alloc, name);
    }
    let mut text = String::from_str(alloc, from)?;
    text.push_str(">")?;
    text.push_str(name)?;
    Name::of(alloc, text.as_str())
}

/// How many names stand behind the first in a text.
fn depth(text: &str) -> usize
    ensures { result ≡ depth text.now }
{
    text.as_bytes().iter().filter(|byte| **byte == b'>').count()
}

/// Whether a text has fewer names than another, or as many and is less.
fn is_earlier(new: &str, old: &str) -> bool
    ensures { result ≡ is_earlier new.now old.now }
{
    let names = depth(new);
    let others = depth(old);
    names < others || (names == others && new.cmp(old).is_lt())
}

/// Whether a text is to stand in the place of another.
fn replaces(new: &str, old: &str) -> bool
    ensures { result ≡ replaces new.now old.now }
{
    old.is_empty() || is_earlier(new, old)
}

/// Gives the package at a place a name, if that is its first or an earlier one.
fn name_as(names: &mut Vec<Name>, place: usize, text: Name)
    ensures { names.new.items ≡ named_as names.old.items place text }
{
    if place < names.len() && replaces(text.as_str(), names[place].as_str()) {
        names[place] = text;
    }
}

/// Names the packages to which the links of a package lead.
fn name_by_all(
    alloc: Global,
    names: &mut Vec<Name>,
    from: &str,
    links: &List<Link>,
) -> Result<(), OutOfMemory>
    ensures { OnOk result (names.new.items ≡ named_by_all names.old.items from.now links.now) }
{
    for link in links.as_slice() {
        name_as(names, link.target, longer(alloc, from, link.name.as_str())?);
    }
    Ok(())
}

/// The name of the package at a place, which is empty where there is none.
fn name_at(alloc: Global, names: &Vec<Name>, at: usize) -> Result<Name, OutOfMemory>
    ensures { IfOk result (λ name. name ≡ get_or names.now.items at []) }
{
    match names.get(at) {
        Some(name) => name.copy(),
        None => Name::of(alloc, ""),
    }
}

/// No package has a name yet, but the application's own.
fn first_names(alloc: Global, count: usize) -> Result<Vec<Name>, OutOfMemory>
    ensures { IfOk result (λ names. names.items ≡ APPLICATION_NAME.now ∷ replicate (count - 1) []) }
{
    let mut names = Vec::new(alloc);
    names.push(Name::of(alloc, APPLICATION_NAME)?)?;
    for place in 0..count.saturating_sub(1) {
        names.push(Name::of(alloc, "")?)?;
    }
    Ok(names)
}

/// The canonical names of packages, in reading order.
pub fn canonical_names(
    alloc: Global,
    count: usize,
    links: &List<List<Link>>,
) -> Result<Vec<Name>, OutOfMemory>
    ensures { IfOk result (λ names. names.items ≡ names_by count links.now) }
{
    let mut names = first_names(alloc, count)?;
    for (at, links) in links.as_slice().iter().enumerate() {
        let from = name_at(alloc, &names, at)?;
        name_by_all(alloc, &mut names, from.as_str(), links)?;
    }
    Ok(names)
}
