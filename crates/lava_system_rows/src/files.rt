// The system's files: what they hold, and the count of faults.

use crate::fault::Fault;
use crate::shown::{meant, number, show};
use lava_streams::clock::Clock;
use lava_streams::fault::ReadFault;
use lava_streams::folder::{FileRead, Folder, Listing};
use lava_system::real_clock::RealClock;
use lava_system::real_folder::RealFolder;
use std::alloc::Global;
use std::{env, fs};

/// `read LIMIT PATH`.
pub fn read(rt: &HostRuntime, rest: &str) -> Result<String, Fault> {
    let (limit, path) = rest.split_once(' ').unwrap_or((rest, ""));
    let path = meant(rt.alloc(), path)?;
    let mut folder = RealFolder::new(rt);
    let read = folder.read(rt.alloc(), path.as_str(), number(limit)?);
    read_in_words(rt.alloc(), read, folder.faults())
}

// What a folder answered, and its faults.
fn read_in_words(
    alloc: Global,
    read: Result<FileRead, ReadFault>,
    faults: u64,
) -> Result<String, Fault> {
    match read {
        Ok(FileRead::Bytes(bytes)) => held(alloc, bytes.as_slice(), faults),
        Ok(FileRead::Absent) => Ok(format!(in alloc; "absent {faults}")?),
        Ok(FileRead::Longer) => Ok(format!(in alloc; "longer {faults}")?),
        Err(ReadFault::Failed) => Ok(format!(in alloc; "failed {faults}")?),
        Err(ReadFault::OutOfMemory) => Err(Fault::OutOfMemory),
    }
}

// The bytes of a file, and the faults of its folder.
fn held(alloc: Global, bytes: &[u8], faults: u64) -> Result<String, Fault> {
    let mut words = String::new(alloc);
    show(&mut words, bytes)?;
    Ok(format!(in alloc; "{words} {faults}")?)
}

/// `list PATH`.
pub fn list(rt: &HostRuntime, path: &str) -> Result<String, Fault> {
    let mut folder = RealFolder::new(rt);
    let listing = folder.list(rt.alloc(), path);
    listing_in_words(rt.alloc(), listing, folder.faults())
}

/// A path in the temporary folder that no other run takes.
pub fn new_path(rt: &HostRuntime) -> Result<String, Fault> {
    let temporary = env::temp_dir(rt)?;
    let moment = RealClock::new(rt).now()?;
    Ok(format!(in rt.alloc(); "{}/lava_rows_{moment}", temporary.as_path().as_str())?)
}

/// `list_empty`.
pub fn list_empty(rt: &HostRuntime) -> Result<String, Fault> {
    let path = new_path(rt)?;
    fs::create_dir(rt, path.as_str())?;
    let words = list(rt, path.as_str())?;
    fs::remove_dir(rt, path.as_str())?;
    Ok(words)
}

// The names of a listing, each before a space, and the faults of its folder.
fn listing_in_words(
    alloc: Global,
    listing: Result<Listing, ReadFault>,
    faults: u64,
) -> Result<String, Fault> {
    match listing {
        Ok(Listing::Names(names)) => {
            let mut words = String::new(alloc);
            for name in names.as_slice() {
                words.push_str(name.as_str())?;
                words.push(' ')?;
            }
            Ok(format!(in alloc; "{words}{faults}")?)
        }
        Ok(Listing::Absent) => Ok(format!(in alloc; "absent {faults}")?),
        Err(ReadFault::Failed) => Ok(format!(in alloc; "failed {faults}")?),
        Err(ReadFault::OutOfMemory) => Err(Fault::OutOfMemory),
    }
}
