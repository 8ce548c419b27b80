// The keys of free paths.

ghost use Rattle.std.specs.Prelude.{◌≡◌, IfOk};
ghost use Rattle.policy_gen.specs.Uses as spec;

use js_scope::free_paths::FreePath;
use lava_base::list::List;
use lava_base::memory::OutOfMemory;
use lava_base::name::Name;
use std::alloc::Global;

/// The key of a free path: its first two names, joined by a point.
pub(crate) fn path_key(alloc: Global, path: &FreePath) -> Result<Name, OutOfMemory>
    ensures { IfOk result (λ key. key ≡ spec.path_key path.now) }
{
    let mut bytes = List::new(alloc);
    match path.names.as_slice() {
        [] => {}
        [name] => name.write_utf8(&mut bytes)?,
        [name, member, ..] => {
            name.write_utf8(&mut bytes)?;
            bytes.push(b'.')?;
            member.write_utf8(&mut bytes)?;
        }
    }
    name_of_bytes(alloc, &bytes)
}

/// Bytes as a name, which they are where they are UTF-8.
fn name_of_bytes(alloc: Global, bytes: &List<u8>) -> Result<Name, OutOfMemory>
    ensures { IfOk result (λ name. name ≡ bytes.now) }
{
    match str::from_utf8(bytes.as_slice()) {
        Ok(text) => Name::of(alloc, text),
        Err(_) => Err(OutOfMemory),
    }
}
