// The folders of rows.

ghost use Rattle.std.specs.Prelude.{◌≤◌};

use crate::fault::Fault;
use crate::files::add_file;
use crate::numbers::number_of;
use lava_streams::memory_folder::MemoryFolder;
use std::alloc::Global;

/// `files PATH=TEXT|..`: files below the application's folder. A path that ends before its `=` with a `/` is that of a manifest there.
pub fn files_of(alloc: Global, files: &str) -> Result<MemoryFolder, Fault> {
    let mut folder = MemoryFolder::new(alloc);
    for file in files.split('|') {
        if let Some((path, text)) = file.split_once('=') {
            add_file(alloc, &mut folder, path, text.as_bytes())?;
        }
    }
    Ok(folder)
}

/// `fails N PATH=TEXT|..`: the same, where the N-th call on the folder fails.
pub fn failing(alloc: Global, rest: &str) -> Result<MemoryFolder, Fault> {
    let (at, files) = rest.split_once(' ').unwrap_or((rest, ""));
    let mut folder = files_of(alloc, files)?;
    folder.fail_at(number_of(at)?.max(1))?;
    Ok(folder)
}

/// `chain N`: the application depends on `p1`, and each `pK` on the next.
pub fn chain(alloc: Global, count: &str) -> Result<MemoryFolder, Fault> {
    let count = number_of(count)?;
    let mut folder = MemoryFolder::new(alloc);
    add_file(alloc, &mut folder, "", b"{\"dependencies\":{\"p1\":\"1\"}}")?;
    for k in 1..count {
        let next = k.saturating_add(1);
        let text = format!(in alloc; "{{\"dependencies\":{{\"p{next}\":\"1\"}}}}")?;
        let path = format!(in alloc; "node_modules/p{k}/")?;
        add_file(alloc, &mut folder, path.as_str(), text.as_bytes())?;
    }
    let path = format!(in alloc; "node_modules/p{count}/")?;
    add_file(alloc, &mut folder, path.as_str(), b"{}")?;
    Ok(folder)
}

/// `star N`: the application depends on `p1` to `pN`.
pub fn star(alloc: Global, count: &str) -> Result<MemoryFolder, Fault> {
    depending(alloc, number_of(count)?, false)
}

/// `all N`: the application depends on `p1` to `pN`, and each of these on all.
pub fn all_on_all(alloc: Global, count: &str) -> Result<MemoryFolder, Fault> {
    depending(alloc, number_of(count)?, true)
}

/// `requiring N`: the entry requires `m1`, and each `mK` the next.
pub fn requiring(alloc: Global, count: &str) -> Result<MemoryFolder, Fault> {
    let count = number_of(count)?;
    let mut folder = MemoryFolder::new(alloc);
    add_file(alloc, &mut folder, "index.js", b"./m1")?;
    for k in 1..=count {
        let next = k.saturating_add(1);
        let text = format!(in alloc; "./m{next}")?;
        let path = format!(in alloc; "m{k}.js")?;
        add_file(
            alloc,
            &mut folder,
            path.as_str(),
            if k < count { text.as_bytes() } else { b"" },
        )?;
    }
    Ok(folder)
}

/// `long N`: the entry requires `m1` to `m17`, each of N bytes.
pub fn long(alloc: Global, count: &str) -> Result<MemoryFolder, Fault> {
    let mut text = String::new(alloc);
    for _ in 0..number_of(count)? {
        text.push('/')?;
    }
    let mut entry = String::new(alloc);
    let mut folder = MemoryFolder::new(alloc);
    for k in 1..=17 {
        let path = format!(in alloc; "m{k}.js")?;
        add_file(alloc, &mut folder, path.as_str(), text.as_bytes())?;
        let request = format!(in alloc; "./m{k} ")?;
        entry.push_str(request.as_str())?;
    }
    add_file(alloc, &mut folder, "index.js", entry.as_bytes())?;
    Ok(folder)
}

fn depending(alloc: Global, count: u32, all: bool) -> Result<MemoryFolder, Fault> {
    let manifest = manifest_of(alloc, count)?;
    let own = if all { manifest.as_str() } else { "{}" };
    let mut folder = MemoryFolder::new(alloc);
    add_file(alloc, &mut folder, "", manifest.as_bytes())?;
    for k in 1..=count {
        let path = format!(in alloc; "node_modules/p{k}/")?;
        add_file(alloc, &mut folder, path.as_str(), own.as_bytes())?;
    }
    Ok(folder)
}

// A manifest that depends on `p1` to `pN`.
fn manifest_of(alloc: Global, count: u32) -> Result<String, Fault> {
    let mut text = String::from_str(alloc, "{\"dependencies\":{\"p1\":\"1\"")?;
    for k in 2..=count {
        let more = format!(in alloc; ",\"p{k}\":\"1\"")?;
        text.push_str(more.as_str())?;
    }
    text.push_str("}}")?;
    Ok(text)
}
