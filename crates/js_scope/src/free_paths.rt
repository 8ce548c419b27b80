// What a source uses of names that it does not declare.

ghost use Rattle.std.specs.Prelude.{◌≡◌, ◌++◌, ◌∷◌, map, OnOk, IfOk};
ghost use Rattle.indexmap.specs.IndexMap.{insert_entry};
ghost use Rattle.js_text.specs.Texts.{same_units};
ghost use Rattle.js_scope.specs.FreePaths as spec;

use crate::finding::{Finding, NameUse};
use crate::resolve::Resolved;
use crate::static_path::add_text;
use indexmap::IndexMap;
use js_text::text::{Text, from_units};
use js_walk::words::is_word;
use lava_base::list::List;
use lava_base::memory::OutOfMemory;
use sqlite_items::Items;
use std::alloc::Global;

/// `.`
pub const POINT: [u16; 1] = [46];

/// A free name and the static members behind it, and whether some use assigns just this path.
#[derive(Drop)]
pub struct FreePath {
    pub names: Items<Text>,
    pub write: bool,
}

fn is_value(name: &Text) -> bool
    ensures { result ≡ spec.is_value name.now }
{
    is_word(name, b"undefined") || (is_word(name, b"NaN") || is_word(name, b"Infinity"))
}

fn is_free(found: &NameUse) -> bool
    ensures { result ≡ spec.is_free found.now }
{
    !found.declaration.is_some() && (found.writes || !is_value(&found.name))
}

fn point(alloc: Global) -> Result<Text, OutOfMemory>
    ensures { IfOk result (λ text. text ≡ spec.point) }
{
    match from_units(alloc, &POINT) {
        Ok(text) => Ok(text),
        Err(_) => Err(OutOfMemory),
    }
}

fn joined(alloc: Global, front: &Text, back: &Text) -> Result<Text, OutOfMemory>
    ensures { IfOk result (λ text. text ≡ front.now ++ back.now) }
{
    match front.concat(alloc, back) {
        Ok(text) => Ok(text),
        Err(_) => Err(OutOfMemory),
    }
}

fn with_member(alloc: Global, text: &Text, member: &Text) -> Result<Text, OutOfMemory>
    ensures { IfOk result (λ longer. longer ≡ (text.now ++ spec.point) ++ member.now) }
{
    let point = point(alloc)?;
    let front = joined(alloc, text, &point)?;
    joined(alloc, &front, member)
}

fn with_members(alloc: Global, text: Text, mut list: &[Text]) -> Result<Text, OutOfMemory>
    ensures { IfOk result (λ longer. longer ≡ spec.joined_from text list.entry.now) }
{
    let mut text = text;
    while let [first, rest @ ..] = list {
        text = with_member(alloc, &text, first)?;
        list = rest;
    }
    Ok(text)
}

fn path_text(alloc: Global, found: &NameUse) -> Result<Text, OutOfMemory>
    ensures { IfOk result (λ text. text ≡ spec.path_text found.now) }
{
    let name = found.name.copy()?;
    with_members(alloc, name, found.members.as_slice())
}

fn add_texts(mut list: &[Text], out: &mut Items<Text>) -> Result<(), OutOfMemory>
    ensures { OnOk result (out.new ≡ out.old ++ list.entry.now) }
{
    while let [first, rest @ ..] = list {
        add_text(first, out)?;
        list = rest;
    }
    Ok(())
}

fn path_names(alloc: Global, found: &NameUse) -> Result<Items<Text>, OutOfMemory>
    ensures { IfOk result (λ names. names ≡ found.now.name ∷ found.now.members) }
{
    let mut names = Items::new(alloc);
    add_text(&found.name, &mut names)?;
    add_texts(found.members.as_slice(), &mut names)?;
    Ok(names)
}

fn is_written(text: &Text, paths: &IndexMap<Text, FreePath>) -> bool
    ensures { result ≡ spec.is_written text.now paths.now.entries }
{
    match paths.get(text) {
        None => false,
        Some(path) => path.write,
    }
}

fn put(paths: &mut IndexMap<Text, FreePath>, text: Text, path: FreePath) -> Result<(), OutOfMemory>
    ensures { OnOk result (paths.new.entries
        ≡ insert_entry same_units paths.old.entries text path) }
{
    paths.insert(text, path)?;
    Ok(())
}

fn add_use(
    alloc: Global,
    found: &NameUse,
    paths: &mut IndexMap<Text, FreePath>,
) -> Result<(), OutOfMemory>
    ensures { OnOk result (paths.new.entries ≡ spec.with_use paths.old.entries found.now) }
{
    if !is_free(found) {
        return Ok(());
    }
    let names = path_names(alloc, found)?;
    let text = path_text(alloc, found)?;
    let write = found.writes || is_written(&text, paths);
    put(paths, text, FreePath { names, write })
}

fn add_finding(
    alloc: Global,
    finding: &Finding,
    paths: &mut IndexMap<Text, FreePath>,
) -> Result<(), OutOfMemory>
    ensures { OnOk result (paths.new.entries ≡ spec.with_finding paths.old.entries finding.now) }
{
    match finding {
        Finding::Used(found) => add_use(alloc, found, paths),
        Finding::Requested(_) => Ok(()),
    }
}

fn add_findings(
    alloc: Global,
    mut list: &[Finding],
    paths: &mut IndexMap<Text, FreePath>,
) -> Result<(), OutOfMemory>
    ensures { OnOk result (paths.new.entries
        ≡ spec.with_findings paths.old.entries list.entry.now) }
{
    while let [first, rest @ ..] = list {
        add_finding(alloc, first, paths)?;
        list = rest;
    }
    Ok(())
}

fn listed(alloc: Global, paths: IndexMap<Text, FreePath>) -> Result<List<FreePath>, OutOfMemory>
    ensures { IfOk result (λ list. list ≡ map (λ e. e.1) paths.entries) }
{
    let mut list = List::new(alloc);
    for path in paths.into_values() {
        list.push(path)?;
    }
    Ok(list)
}

/// The free names that a source uses, with the static members behind them: each path once, in the order of first uses. One writes where some use assigns just this path. Free `undefined`, `NaN` and `Infinity` are none where they are read.
pub fn free_paths(alloc: Global, resolved: &Resolved) -> Result<List<FreePath>, OutOfMemory>
    ensures { IfOk result (λ list. list ≡ spec.free_paths resolved.now.findings) }
{
    let mut paths = IndexMap::new(alloc);
    add_findings(alloc, resolved.findings.as_slice(), &mut paths)?;
    listed(alloc, paths)
}
