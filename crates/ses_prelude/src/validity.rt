// Whether templates are valid.

ghost use Rattle.std.specs.Prelude.{◌↔◌, IfOk, IsTrue};
ghost use Rattle.ses_prelude.specs.Preludes.{AreValid};

use js_term::term::Template;
use js_valid::valid::valid_term;
use lava_base::memory::OutOfMemory;
use std::alloc::Global;

/// Whether each of some templates is valid, with all templates inside.
pub(crate) fn are_valid(alloc: Global, templates: &[Template]) -> Result<bool, OutOfMemory>
    ensures { IfOk result (λ valid. IsTrue valid ↔ AreValid templates.now) }
{
    let mut left = templates;
    while let [first, rest @ ..] = left {
        if !valid_term(alloc, first)? {
            return Ok(false);
        }
        left = rest;
    }
    Ok(true)
}
