// The reader of modules of the language.

use crate::code::ModuleCode;
use crate::json::read_json;
use crate::source::read_source;
use lava_base::memory::OutOfMemory;
use pkg_load::reader::{ModuleKind, ModuleRead, ModuleReader};
use std::alloc::Global;

/// The reader of modules of the language.
#[derive(Drop)]
pub struct SourceReader;

impl ModuleReader for SourceReader {
    ghost use Rattle.pkg_source.specs.Reading.{IsRead};

    type Code = ModuleCode;

    ghost Reads = { λ _ kind bytes r. IsRead kind bytes r };

    fn read(
        &self,
        alloc: Global,
        kind: ModuleKind,
        bytes: &[u8],
    ) -> Result<ModuleRead<ModuleCode>, OutOfMemory> {
        match kind {
            ModuleKind::Source => read_source(alloc, bytes),
            ModuleKind::Json => read_json(alloc, bytes),
        }
    }
}
