// What stands round a term.

ghost use Rattle.std.specs.Prelude.{◌≡◌, ◌<◌, get_or};
ghost use Rattle.js_valid.specs.Surroundings as spec;
ghost use Rattle.js_valid.specs.Surroundings.{place};

use js_term::term::TemplateKind;
use js_text::text::Text;

/// What a term stands in: a scope, a template or what has labels.
#[derive(Clone, Copy, Drop)]
pub enum Surrounding<'a> {
    /// A scope of so many slots.
    Scope(u32),
    /// The handler of a `Try`, whose scope has one slot.
    Handler,
    /// A template, whose scope has so many slots.
    Body { kind: TemplateKind, slots: u32 },
    /// A loop with its labels.
    Loop(&'a [Text]),
    /// A label's term.
    Label(&'a Text),
}

fn scope_slots(of: Surrounding<'_>) -> Option<u32>
    ensures { result ≡ spec.scope_slots (spec.round_of of.entry) }
{
    match of {
        Surrounding::Scope(slots) => Some(slots),
        Surrounding::Handler => Some(1),
        Surrounding::Body { slots, .. } => Some(slots),
        Surrounding::Loop(_) => None,
        Surrounding::Label(_) => None,
    }
}

/// Whether a scope that is so many hops outwards has a slot; what stands innermost is last.
pub fn is_slot(round: &[Surrounding<'_>], hops: u32, slot: u32) -> bool
    ensures { result ≡ spec.is_slot (place round.now) hops slot }
{
    let mut left = hops;
    let mut at = round.len();
    while 0 < at {
        at -= 1;
        if let Some(slots) = scope_slots(round[at]) {
            if left == 0 {
                return slot < slots;
            }
            left -= 1;
        }
    }
    false
}
