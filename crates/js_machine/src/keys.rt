// The keys that the machine itself names.

ghost use Rattle.std.specs.Prelude.{◌≡◌, codes, IfOk};
ghost use Rattle.js_text.specs.declared.value.Key.TheVariants as key;

use js_text::copy::copy_key;
use js_text::text::from_units;
use js_text::value::Key;
use lava_base::memory::OutOfMemory;
use std::alloc::Global;

/// The units of the name `length`.
static LENGTH: [u16; 6] = [108, 101, 110, 103, 116, 104];

/// The units of the name `name`.
static NAME: [u16; 4] = [110, 97, 109, 101];

/// The units of the name `prototype`.
static PROTOTYPE: [u16; 9] = [112, 114, 111, 116, 111, 116, 121, 112, 101];

/// The units of the name `constructor`.
static CONSTRUCTOR: [u16; 11] = [99, 111, 110, 115, 116, 114, 117, 99, 116, 111, 114];

/// Keys that are made once.
#[derive(Drop)]
pub struct KnownKeys {
    length: Key,
    name: Key,
    prototype: Key,
    constructor: Key,
    ghost length_named: { length ≡ key.Text (codes "length") },
    ghost name_named: { name ≡ key.Text (codes "name") },
    ghost prototype_named: { prototype ≡ key.Text (codes "prototype") },
    ghost constructor_named: { constructor ≡ key.Text (codes "constructor") },
}

/// The key of a name.
fn key_of(alloc: Global, units: &[u16]) -> Result<Key, OutOfMemory>
    ensures { IfOk result (λ k. k ≡ key.Text units.now) }
{
    match from_units(alloc, units) {
        Ok(text) => Ok(Key::Text(text)),
        Err(_) => Err(OutOfMemory),
    }
}

impl KnownKeys {
    /// Makes the keys.
    pub fn new(alloc: Global) -> Result<KnownKeys, OutOfMemory> {
        let length = key_of(alloc, &LENGTH)?;
        let name = key_of(alloc, &NAME)?;
        let prototype = key_of(alloc, &PROTOTYPE)?;
        let constructor = key_of(alloc, &CONSTRUCTOR)?;
        Ok(KnownKeys {
            length,
            name,
            prototype,
            constructor,
        })
    }

    /// The key `length`.
    pub fn length(&self) -> Result<Key, OutOfMemory>
        ensures { IfOk result (λ k. k ≡ key.Text (codes "length")) }
    {
        copy_key(&self.length)
    }

    /// The key `name`.
    pub fn name(&self) -> Result<Key, OutOfMemory>
        ensures { IfOk result (λ k. k ≡ key.Text (codes "name")) }
    {
        copy_key(&self.name)
    }

    /// The key `prototype`.
    pub fn prototype(&self) -> Result<Key, OutOfMemory>
        ensures { IfOk result (λ k. k ≡ key.Text (codes "prototype")) }
    {
        copy_key(&self.prototype)
    }

    /// The key `constructor`.
    pub fn constructor(&self) -> Result<Key, OutOfMemory>
        ensures { IfOk result (λ k. k ≡ key.Text (codes "constructor")) }
    {
        copy_key(&self.constructor)
    }
}
