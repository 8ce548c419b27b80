// Bytes as units of 16 bits.

ghost use Rattle.std.specs.Prelude.{◌≡◌, ◌≤◌, length, take, IfOk};

use lava_base::memory::OutOfMemory;
use std::alloc::Global;

/// Writes the bytes as units to the front of these.
pub fn write_units(bytes: &[u8], units: &mut [u16])
    requires { length bytes.now ≤ length units.old }
    ensures { take (length bytes.now) units.new ≡ bytes.now }
{
    for (place, byte) in bytes.iter().enumerate() {
        units[place] = u16::from(*byte);
    }
}

/// The bytes as units.
pub fn byte_units(alloc: Global, bytes: &[u8]) -> Result<Vec<u16>, OutOfMemory>
    ensures { IfOk result (λ units. units.items ≡ bytes.now) }
{
    let mut units = Vec::with_capacity(alloc, bytes.len())?;
    for byte in bytes {
        units.push(u16::from(*byte))?;
    }
    Ok(units)
}
