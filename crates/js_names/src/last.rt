// Lists whose last item is taken away again.

ghost use Rattle.std.specs.Prelude.{◌≡◌};
ghost use Rattle.js_names.specs.Lasts.{but_last};

use sqlite_items::Items;

/// Takes the last item away, if there is one.
#[tactic(auto, using(crate::proofs::Lasts::but_last_push))]
pub fn close<T: Drop>(list: &mut Items<T>)
    ensures { list.new ≡ but_last list.old }
{
    list.pop();
}
