// The program's call over the forms in memory: its status, what is printed, and what stands on the errors.

ghost use Rattle.std.specs.Prelude.{◌≤◌};

use lava_base::memory::OutOfMemory;
use lava_cli::command::lava;
use lava_streams::memory_clock::MemoryClock;
use lava_streams::memory_folder::MemoryFolder;
use lava_streams::memory_sink::MemorySink;
use lava_streams::memory_source::MemorySource;
use lava_system_rows::fault::Fault;
use lava_system_rows::shown::{meant, number, show};
use std::alloc::Global;

// A call that comes in no row.
const NEVER: u32 = 4_294_967_295;

// The policy file of the application.
const POLICY: &str = "app/lavamoat/node/policy.json";

// Its override.
const OVERRIDE: &str = "app/lavamoat/node/policy-override.json";

// The words of the rows that have none of their own.
const RUN: &str = "run app";

// The program of the rows that have none of their own.
const PROGRAM: &[u8] = b"console.log('a'); console.log('b');";

/// `run SOURCE`, `trace SOURCE` and `tree SOURCE`, with the words of each.
pub fn source(alloc: Global, words: &str, source: &str) -> Result<String, Fault> {
    let source = meant(alloc, source)?;
    let folder = folder_with(alloc, "app/index.js", source.as_bytes())?;
    call(alloc, words, folder, NEVER, NEVER)
}

/// `app COMMAND FILES`.
pub fn app(alloc: Global, rest: &str) -> Result<String, Fault> {
    let (command, files) = rest.split_once(' ').unwrap_or((rest, ""));
    let folder = folder_of(alloc, files)?;
    let words = format!(in alloc; "{command} app")?;
    call(alloc, words.as_str(), folder, NEVER, NEVER)
}

/// `words WORDS`.
pub fn words(alloc: Global, words: &str) -> Result<String, Fault> {
    let folder = folder_with(alloc, "app/index.js", PROGRAM)?;
    call(alloc, words, folder, NEVER, NEVER)
}

/// `missing`.
pub fn missing(alloc: Global) -> Result<String, Fault> {
    let folder = folder_with(alloc, "app/other.js", PROGRAM)?;
    call(alloc, "run app", folder, NEVER, NEVER)
}

/// `bytes N`: spaces, and one call at the end.
pub fn bytes(alloc: Global, count: &str) -> Result<String, Fault> {
    let call_of = b"console.log(1)";
    let spaces = (number(count)? as usize).saturating_sub(call_of.len());
    let mut source = vec![in alloc; b' '; spaces]?;
    source.extend_from_slice(call_of)?;
    let folder = folder_with(alloc, "app/index.js", source.as_slice())?;
    call(alloc, "run app", folder, NEVER, NEVER)
}

/// `policy MAIN OVERRIDE`, which have no spaces; there is no override where no second one stands.
pub fn policy(alloc: Global, files: &str) -> Result<String, Fault> {
    let (main, over) = files.split_once(' ').unwrap_or((files, ""));
    let mut folder = folder_with(alloc, "app/index.js", PROGRAM)?;
    folder.add(POLICY, main.as_bytes())?;
    if !over.is_empty() {
        folder.add(OVERRIDE, over.as_bytes())?;
    }
    call(alloc, "run app", folder, NEVER, NEVER)
}

/// `policy_bytes N`: an array with spaces in it.
pub fn policy_bytes(alloc: Global, count: &str) -> Result<String, Fault> {
    let spaces = (number(count)? as usize).saturating_sub(2);
    let mut policy = vec![in alloc; b'[']?;
    policy.extend_from_slice(&vec![in alloc; b' '; spaces]?)?;
    policy.push(b']')?;
    let folder = folder_with(alloc, POLICY, policy.as_slice())?;
    call(alloc, "run app", folder, NEVER, NEVER)
}

/// `folder N WORDS`.
pub fn folder_fails(alloc: Global, rest: &str) -> Result<String, Fault> {
    let (at, words) = rest.split_once(' ').unwrap_or((rest, RUN));
    let mut folder = folder_with(alloc, "app/index.js", PROGRAM)?;
    folder.fail_at(number(at)?.max(1))?;
    call(alloc, words, folder, NEVER, NEVER)
}

/// `output N WORDS`.
pub fn output_fails(alloc: Global, rest: &str) -> Result<String, Fault> {
    let (at, words) = rest.split_once(' ').unwrap_or((rest, RUN));
    let folder = folder_with(alloc, "app/index.js", PROGRAM)?;
    call(alloc, words, folder, number(at)?.max(1), NEVER)
}

/// `output_app N COMMAND FILES`.
pub fn output_fails_of_app(alloc: Global, rest: &str) -> Result<String, Fault> {
    let (at, rest) = rest.split_once(' ').unwrap_or((rest, ""));
    let (command, files) = rest.split_once(' ').unwrap_or((rest, ""));
    let folder = folder_of(alloc, files)?;
    let words = format!(in alloc; "{command} app")?;
    call(alloc, words.as_str(), folder, number(at)?.max(1), NEVER)
}

/// `errors N`.
pub fn errors_fail(alloc: Global, at: &str) -> Result<String, Fault> {
    let folder = folder_with(alloc, "app/index.js", PROGRAM)?;
    call(alloc, "run", folder, NEVER, number(at)?.max(1))
}

// A folder with one file.
fn folder_with(alloc: Global, path: &str, bytes: &[u8]) -> Result<MemoryFolder, OutOfMemory> {
    let mut folder = MemoryFolder::new(alloc);
    folder.add(path, bytes)?;
    Ok(folder)
}

// A folder with these files.
fn folder_of(alloc: Global, files: &str) -> Result<MemoryFolder, Fault> {
    let mut folder = MemoryFolder::new(alloc);
    for file in files.split('\t') {
        add_file(alloc, &mut folder, file)?;
    }
    Ok(folder)
}

// Adds a file, `PATH=TEXT`.
fn add_file(alloc: Global, folder: &mut MemoryFolder, file: &str) -> Result<(), Fault> {
    let (path, text) = file.split_once('=').unwrap_or((file, ""));
    let path = format!(in alloc; "app/{path}")?;
    let text = meant(alloc, text)?;
    folder.add(path.as_str(), text.as_bytes())?;
    Ok(())
}

// A sink of which the n-th call fails.
fn sink_failing(alloc: Global, at: u32) -> Result<MemorySink, OutOfMemory>
    requires { 1 ≤ at }
{
    let mut sink = MemorySink::with_room(alloc, 4_096)?;
    sink.fail_at(at)?;
    Ok(sink)
}

// The words, which stand parted by a space.
fn parted(alloc: Global, words: &str) -> Result<Vec<String>, Fault> {
    let mut list = Vec::new(alloc);
    for word in words.split(' ') {
        if !word.is_empty() {
            list.push(String::from_str(alloc, word)?)?;
        }
    }
    Ok(list)
}

// What a call makes of a folder, where these calls on the output and on the errors fail.
fn call(
    alloc: Global,
    words: &str,
    folder: MemoryFolder,
    out: u32,
    err: u32,
) -> Result<String, Fault>
    requires out { 1 ≤ out }
    requires err { 1 ≤ err }
{
    let mut folder = folder;
    let mut out = sink_failing(alloc, out)?;
    let mut err = sink_failing(alloc, err)?;
    let words = parted(alloc, words)?;
    let status = status(alloc, words.as_slice(), &mut folder, &mut out, &mut err);
    answer(alloc, status, out.held(), err.held())
}

// The status of a call.
fn status(
    alloc: Global,
    words: &[String],
    folder: &mut MemoryFolder,
    out: &mut MemorySink,
    err: &mut MemorySink,
) -> u8 {
    let mut input = MemorySource::new(alloc);
    let mut clock = MemoryClock::new(alloc);
    lava(alloc, words, folder, &mut input, out, err, &mut clock)
}

// A status, what was printed, and what stands on the errors.
fn answer(alloc: Global, status: u8, out: &[u8], err: &[u8]) -> Result<String, Fault> {
    let mut shown = format!(in alloc; "{status} ")?;
    show(&mut shown, out)?;
    shown.push(' ')?;
    show(&mut shown, err)?;
    Ok(shown)
}
