// The outside of rows.

ghost use Rattle.std.specs.Prelude.{◌≤◌};

use crate::bytes::bytes_of;
use crate::fault::Fault;
use crate::numbers::number_of;
use lava_streams::memory_clock::MemoryClock;
use lava_streams::memory_folder::MemoryFolder;
use lava_streams::memory_sink::MemorySink;
use lava_streams::memory_source::MemorySource;
use std::alloc::Global;

/// What the host is given.
#[derive(Drop)]
pub struct World {
    pub folder: MemoryFolder,
    pub input: MemorySource,
    pub output: MemorySink,
    pub errors: MemorySink,
    pub clock: MemoryClock,
}

/// How many bytes each sink has room for.
const ROOM: u32 = 2_000_000;

/// The outside that these parts of a row say: files `PATH=TEXT ..` below the application's folder, the input and moments.
pub fn world_of(alloc: Global, files: &str, input: &str, moments: &str) -> Result<World, Fault> {
    Ok(World {
        folder: folder_of(alloc, files)?,
        input: input_of(alloc, input)?,
        output: MemorySink::with_room(alloc, ROOM)?,
        errors: MemorySink::with_room(alloc, ROOM)?,
        clock: clock_of(alloc, moments)?,
    })
}

/// Lets the N-th call on an object fail.
pub fn fail_at(world: &mut World, object: &str, n: u32) -> Result<(), Fault> {
    let n = n.max(1);
    match object {
        "folder" => world.folder.fail_at(n)?,
        "input" => world.input.fail_at(n)?,
        "output" => world.output.fail_at(n)?,
        "errors" => world.errors.fail_at(n)?,
        "clock" => world.clock.fail_at(n)?,
        _ => return Err(Fault::Line),
    }
    Ok(())
}

fn folder_of(alloc: Global, files: &str) -> Result<MemoryFolder, Fault> {
    let mut folder = MemoryFolder::new(alloc);
    for file in files.split(' ') {
        if let Some((path, text)) = file.split_once('=') {
            add_file(alloc, &mut folder, path, text)?;
        }
    }
    Ok(folder)
}

// Adds a file. The text `*N` is N bytes.
fn add_file(alloc: Global, folder: &mut MemoryFolder, path: &str, text: &str) -> Result<(), Fault> {
    let path = format!(in alloc; "app/{path}")?;
    match text.strip_prefix('*') {
        Some(count) => folder.add(path.as_str(), repeated(alloc, count)?.as_bytes())?,
        None => folder.add(path.as_str(), bytes_of(alloc, text)?.as_slice())?,
    }
    Ok(())
}

// An input. The text `*N` is N bytes without LF.
fn input_of(alloc: Global, text: &str) -> Result<MemorySource, Fault> {
    let mut input = MemorySource::new(alloc);
    match text.strip_prefix('*') {
        Some(count) => input.give(repeated(alloc, count)?.as_bytes())?,
        None => input.give(bytes_of(alloc, text)?.as_slice())?,
    }
    Ok(input)
}

fn repeated(alloc: Global, count: &str) -> Result<String, Fault> {
    let mut text = String::new(alloc);
    for _ in 0..number_of(count)? {
        text.push('x')?;
    }
    Ok(text)
}

fn clock_of(alloc: Global, moments: &str) -> Result<MemoryClock, Fault> {
    let mut clock = MemoryClock::new(alloc);
    for moment in moments.split(' ') {
        if !moment.is_empty() {
            clock.add(u64::from(number_of(moment)?))?;
        }
    }
    Ok(clock)
}
