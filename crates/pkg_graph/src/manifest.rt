// What a manifest, a file `package.json`, says of its package.

ghost use Rattle.std.specs.Prelude.{◌≡◌, List as Listed, ℕ, Some, None, IfOk, map, string_bytes, fold, option_map, if◌then◌else◌};
ghost use Rattle.std.specs.Bool.{OnTrue};
ghost use Rattle.serde_json.specs.Find.{get, as_object};
ghost use Rattle.serde_json.specs.View.{view, members_view};
ghost use Rattle.lava_streams.specs.Files.{with_name};
ghost use Rattle.pkg_graph.specs.Manifests.{member_names, names_given, main_given, judged_value, judged_document, manifest_read, package_names};
ghost use Rattle.pkg_graph.specs.Gathering.{texts_of, Gathers};

use crate::field::{DEPENDENCIES, Field, MAIN, OPTIONAL_DEPENDENCIES, PEER_DEPENDENCIES};
use crate::gathering::list_of;
use crate::package_name::is_package_name;
use lava_base::list::List;
use lava_base::memory::OutOfMemory;
use lava_base::name::Name;
use serde_json::Value;
use std::alloc::Global;
use std::collections::{BTreeMap, BTreeSet};

/// The path of a package's main module where its manifest names none.
pub const DEFAULT_MAIN: &str = "index.js";

/// What is read of a manifest.
#[derive(Drop)]
pub struct Manifest {
    /// The path of the package's main module, as the manifest writes it.
    pub main: Name,
    /// The names of its dependencies, in byte order and each once.
    pub names: List<Name>,
}

/// What the bytes of a manifest give.
#[derive(Drop)]
pub enum ManifestRead {
    /// What it says.
    Manifest(Manifest),
    /// The first field that has not its form.
    Refused(Field),
}

/// Adds the keys of an object to names, up to the first that is no name of a package; whether all of them are.
fn add_keys(
    members: &BTreeMap<String, Value>,
    names: &mut BTreeSet<String>,
) -> Result<bool, OutOfMemory>
    ensures { let given = package_names (members_view members.now.entries) in
        IfOk result (λ all. Gathers given (texts_of names.old) (texts_of names.new) all) }
{
    for key in members.keys() {
        if !is_package_name(key.as_str()) {
            return Ok(false);
        }
        names.insert(key.clone()?)?;
    }
    Ok(true)
}

/// Adds the names that a field gives; whether the field has its form.
fn add_field(value: Option<&Value>, names: &mut BTreeSet<String>) -> Result<bool, OutOfMemory>
    ensures { let given = names_given (option_map (λ v. view v.now) value.entry) in
        IfOk result (λ all. Gathers given (texts_of names.old) (texts_of names.new) all) }
{
    match value {
        None => Ok(true),
        Some(value) => match value.as_object() {
            None => Ok(false),
            Some(members) => add_keys(members, names),
        },
    }
}

/// The path that `main` gives, if the field has its form.
fn main_path(value: Option<&Value>) -> Option<&str>
    ensures { option_map (λ m. m.now) result ≡ main_given (option_map (λ v. view v.now) value.entry) }
{
    match value {
        None => Some(DEFAULT_MAIN),
        Some(value) => value.as_str(),
    }
}

/// What a JSON object says.
fn judge_value(alloc: Global, value: &Value) -> Result<ManifestRead, OutOfMemory>
    ensures { IfOk result (λ r. r ≡ judged_value (view value.now)) }
{
    let Some(main) = main_path(value.get(MAIN)) else {
        return Ok(ManifestRead::Refused(Field::Main));
    };
    let mut names = BTreeSet::new(alloc);
    if !add_field(value.get(DEPENDENCIES), &mut names)? {
        return Ok(ManifestRead::Refused(Field::Dependencies));
    }
    if !add_field(value.get(OPTIONAL_DEPENDENCIES), &mut names)? {
        return Ok(ManifestRead::Refused(Field::OptionalDependencies));
    }
    if !add_field(value.get(PEER_DEPENDENCIES), &mut names)? {
        return Ok(ManifestRead::Refused(Field::PeerDependencies));
    }
    let main = Name::of(alloc, main)?;
    let names = list_of(alloc, &names)?;
    Ok(ManifestRead::Manifest(Manifest { main, names }))
}

/// What a JSON value says, which must be an object.
fn judge_document(alloc: Global, value: &Value) -> Result<ManifestRead, OutOfMemory>
    ensures { IfOk result (λ r. r ≡ judged_document (Some (view value.now))) }
{
    if value.is_object() {
        judge_value(alloc, value)
    } else {
        Ok(ManifestRead::Refused(Field::Whole))
    }
}

/// What the bytes of a manifest give.
pub fn read_manifest(alloc: Global, bytes: &[u8]) -> Result<ManifestRead, OutOfMemory>
    ensures { IfOk result (λ r. r ≡ manifest_read bytes.now) }
{
    match Value::from_slice(alloc, bytes) {
        Ok(value) => judge_document(alloc, &value),
        Err(error) => {
            if error.is_memory() {
                return Err(OutOfMemory);
            }
            Ok(ManifestRead::Refused(Field::Whole))
        }
    }
}
