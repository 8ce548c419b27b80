// Files of applications.

use lava_base::memory::OutOfMemory;
use lava_streams::memory_folder::MemoryFolder;
use std::alloc::Global;

/// Adds a file below the application's folder. A path that is empty or ends with a `/` is that of a manifest there.
pub fn add_file(
    alloc: Global,
    folder: &mut MemoryFolder,
    path: &str,
    bytes: &[u8],
) -> Result<(), OutOfMemory> {
    let mut whole = String::from_str(alloc, "app/")?;
    whole.push_str(path)?;
    if path.is_empty() || path.ends_with('/') {
        whole.push_str("package.json")?;
    }
    folder.add(whole.as_str(), bytes)
}
