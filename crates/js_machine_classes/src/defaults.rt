// The constructors of classes that have none, as templates of a code.

ghost use Rattle.std.specs.Prelude.{◌≡◌, IfOk};
ghost use Rattle.js_code.specs.Decoded.{template_at, term_at, text_at};
ghost use Rattle.js_machine.specs.Defaults.{AreDefaults, IsDefaultOf, is_derived};

use js_code::code::Code;
use js_term::term::TemplateKind;
use lava_base::memory::OutOfMemory;

/// Whether a kind is that of the constructor of a class with a parent.
fn is_derived(kind: TemplateKind) -> bool
    ensures { result ≡ is_derived kind }
{
    matches!(kind, TemplateKind::Derived)
}

/// The place of the constructor of a class that has none, where the one that was made for the class is for one with this name and, or without, a parent. Want of memory is answered too where it is not.
pub fn default_place(
    code: &Code,
    places: &[u32],
    class: u32,
    name: u32,
    derived: bool,
) -> Result<u32, OutOfMemory>
    requires { AreDefaults code.now places.now }
    ensures { let name = text_at code.now name in
        let low = term_at code.now in
        IfOk result (λ at. IsDefaultOf name derived (template_at code.now low at)) }
{
    if class as usize >= places.len() {
        return Err(OutOfMemory);
    }
    let place = places[class as usize];
    let row = code.template(place);
    if is_derived(row.kind) != derived {
        return Err(OutOfMemory);
    }
    if !code.text(row.name).is_same(code.text(name)) {
        return Err(OutOfMemory);
    }
    Ok(place)
}
