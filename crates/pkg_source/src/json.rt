// Texts of JSON.

ghost use Rattle.std.specs.Prelude.{IfOk};
ghost use Rattle.pkg_source.specs.Reading.{IsJsonRead};

use crate::code::ModuleCode;
use js_fault::fault::SyntaxWhat;
use js_lexer::lexer::end_of;
use js_lexer::spot::MAX_SOURCE;
use lava_base::list::List;
use lava_base::memory::OutOfMemory;
use pkg_load::reader::ModuleRead;
use std::alloc::Global;

/// A text of JSON is a module that requests nothing, unless its bytes are not UTF-8. `OutOfMemory` comes of one of more than `MAX_SOURCE` bytes.
pub(crate) fn read_json(alloc: Global, bytes: &[u8]) -> Result<ModuleRead<ModuleCode>, OutOfMemory>
    ensures { IfOk result (IsJsonRead bytes.now) }
{
    if bytes.len() > MAX_SOURCE as usize {
        return Err(OutOfMemory);
    }
    match str::from_utf8(bytes) {
        Ok(_) => Ok(ModuleRead::Module {
            requests: List::new(alloc),
            code: ModuleCode::Json,
        }),
        Err(error) => Ok(ModuleRead::Refused {
            place: end_of(alloc, &bytes[..error.valid_up_to()]),
            what: SyntaxWhat::NotUtf8,
        }),
    }
}
