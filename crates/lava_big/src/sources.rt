// The texts of the files.

ghost use Rattle.std.specs.Prelude.{◌≡◌, ◌++◌, ◌+◌, ◌-◌, ◌<◌, ◌≤◌, IfOk, OnOk, string_bytes};
ghost use Rattle.lava_big.specs.BigFiles as spec;

use crate::texts::{
    DEPENDENCY_END, DEPENDENCY_START, FIRST_SOURCE, LINKED_ADDS, LINKED_END, LINKED_START,
    MANIFEST_END, MANIFEST_START, PACKAGE_PATH, POLICY_END, POLICY_START, ROOT_CALLS, ROOT_END,
    ROOT_START, ROW_ALLOWS, ROW_END, ROW_START,
};
use itoa::Buffer;
use lava_base::memory::OutOfMemory;
use std::alloc::Global;

/// Appends a text, a number in decimal, and a text.
fn push_numbered(
    text: &mut String,
    before: &str,
    number: u32,
    behind: &str,
) -> Result<(), OutOfMemory>
    ensures { let more = spec.numbered before.now number behind.now in
        OnOk result (string_bytes text.new ≡ string_bytes text.old ++ more) }
{
    let mut digits = Buffer::new();
    text.push_str(before)?;
    text.push_str(digits.format(number))?;
    text.push_str(behind)?;
    Ok(())
}

/// What parts an item from so many before it.
fn comma_behind(count: u32) -> &'static str
    ensures { result.now ≡ spec.comma_behind count }
{
    if count == 0 { "" } else { "," }
}

/// Appends the dependencies on the first packages.
#[tactic(auto, using(crate::proofs::Steps::dependencies_one_more))]
fn push_dependencies(text: &mut String, count: u32) -> Result<(), OutOfMemory>
    ensures { let more = spec.dependencies count in
        OnOk result (string_bytes text.new ≡ string_bytes text.old ++ more) }
{
    for below in 0..count {
        text.push_str(comma_behind(below))?;
        push_numbered(text, DEPENDENCY_START, below + 1, DEPENDENCY_END)?;
    }
    Ok(())
}

/// The application's manifest.
pub fn root_manifest(alloc: Global, count: u32) -> Result<String, OutOfMemory>
    ensures { IfOk result (λ text. string_bytes text ≡ spec.root_manifest count) }
{
    let mut text = String::from_str(alloc, MANIFEST_START)?;
    push_dependencies(&mut text, count)?;
    text.push_str(MANIFEST_END)?;
    Ok(text)
}

/// The manifest of the package that has so many before it.
pub fn package_manifest(alloc: Global, below: u32) -> Result<String, OutOfMemory>
    ensures { IfOk result (λ text. string_bytes text ≡ spec.package_manifest below) }
{
    let mut text = String::from_str(alloc, MANIFEST_START)?;
    if below != 0 {
        push_numbered(&mut text, DEPENDENCY_START, below, DEPENDENCY_END)?;
    }
    text.push_str(MANIFEST_END)?;
    Ok(text)
}

/// Appends the rows of so many packages behind the first.
#[tactic(auto, using(crate::proofs::Steps::rows_one_more))]
fn push_rows(text: &mut String, links: u32) -> Result<(), OutOfMemory>
    requires { links < 200 }
    ensures { let more = spec.rows links in
        OnOk result (string_bytes text.new ≡ string_bytes text.old ++ more) }
{
    for below in 0..links {
        text.push_str(comma_behind(below))?;
        push_row(text, below + 1)?;
    }
    Ok(())
}

/// Appends the row of the package behind this one.
fn push_row(text: &mut String, below: u32) -> Result<(), OutOfMemory>
    requires { below < 200 }
    ensures { let more = spec.row below in
        OnOk result (string_bytes text.new ≡ string_bytes text.old ++ more) }
{
    push_numbered(text, ROW_START, below + 1, ROW_ALLOWS)?;
    push_numbered(text, "", below, ROW_END)
}

/// The application's policy.
pub fn policy(alloc: Global, count: u32) -> Result<String, OutOfMemory>
    requires { count ≤ 200 }
    ensures { IfOk result (λ text. string_bytes text ≡ spec.policy count) }
{
    let mut text = String::from_str(alloc, POLICY_START)?;
    push_rows(&mut text, count.saturating_sub(1))?;
    text.push_str(POLICY_END)?;
    Ok(text)
}

/// The application's main module.
pub fn root_source(alloc: Global, count: u32) -> Result<String, OutOfMemory>
    ensures { IfOk result (λ text. string_bytes text ≡ spec.root_source count) }
{
    let mut text = String::new(alloc);
    push_numbered(&mut text, ROOT_START, count, ROOT_CALLS)?;
    push_numbered(&mut text, "", count, ROOT_END)?;
    Ok(text)
}

/// The module of a package with one before it.
fn linked_source(alloc: Global, below: u32) -> Result<String, OutOfMemory>
    requires { below < 200 }
    ensures { IfOk result (λ text. string_bytes text ≡ spec.linked_source below) }
{
    let mut text = String::new(alloc);
    push_numbered(&mut text, LINKED_START, below, LINKED_ADDS)?;
    push_numbered(&mut text, "", below + 1, LINKED_END)?;
    Ok(text)
}

/// The module of the package that has so many before it.
pub fn package_source(alloc: Global, below: u32) -> Result<String, OutOfMemory>
    requires { below < 200 }
    ensures { IfOk result (λ text. string_bytes text ≡ spec.package_source below) }
{
    if below == 0 {
        let text = String::from_str(alloc, FIRST_SOURCE)?;
        Ok(text)
    } else {
        linked_source(alloc, below)
    }
}

/// The path of a file of the package that has so many before it.
pub fn package_path(alloc: Global, below: u32, file: &str) -> Result<String, OutOfMemory>
    requires { below < 200 }
    ensures { IfOk result (λ path. string_bytes path ≡ spec.package_path below file.now) }
{
    let mut path = String::new(alloc);
    push_numbered(&mut path, PACKAGE_PATH, below + 1, file)?;
    Ok(path)
}
