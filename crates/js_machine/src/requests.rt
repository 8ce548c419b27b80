// Texts of the code and of requests.

ghost use Rattle.std.specs.Prelude.{◌≡◌, IfOk, take, drop};
ghost use Rattle.js_operation.specs.js_run.Requests.{but_last};

use js_text::text::{Text, from_units};
use lava_base::memory::OutOfMemory;
use std::alloc::Global;

/// The text of these units. Want of memory is answered too where they are too many for a text.
pub fn text_of(alloc: Global, units: &[u16]) -> Result<Text, OutOfMemory>
    ensures { IfOk result (λ text. text ≡ units.now) }
{
    match from_units(alloc, units) {
        Ok(text) => Ok(text),
        Err(_) => Err(OutOfMemory),
    }
}
