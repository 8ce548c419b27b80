// The last item of a list.

ghost use Rattle.std.specs.Prelude.{◌≡◌};
ghost use Rattle.js_phrase.specs.Lasts as spec;

use sqlite_items::Items;

/// Takes the last item, if there is one.
#[tactic(auto, using(crate::proofs::Lasts_laws::last_append, crate::proofs::Lasts_laws::front_append))]
pub(crate) fn take_last<T>(items: &mut Items<T>) -> Option<T>
    ensures last { result ≡ spec.last_of items.old }
    ensures front { items.new ≡ spec.front_of items.old }
{
    match items.pop() {
        Some(item) => Some(item),
        None => None,
    }
}
