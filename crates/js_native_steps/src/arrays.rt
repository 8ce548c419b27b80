// Arrays that natives make.

ghost use Rattle.std.specs.Prelude.{◌≡◌, ◌++◌, ◌∷◌, [], OnOk, IfOk, length};
ghost use Rattle.js_text.specs.Naming.{naming_of};
ghost use Rattle.js_run.specs.Functions.{array_of};

use js_run::js_operations::made_objects::make_array;
use js_store::store::Store;
use js_text::value::Value;
use lava_base::ids::ObjId;
use lava_base::list::List;
use lava_base::memory::OutOfMemory;
use std::alloc::Global;

/// Makes an array of values at the end of a store (ECMA-262, CreateArrayFromList).
pub fn add_array<S: Store>(
    alloc: Global,
    store: &mut S,
    values: &List<Value>,
) -> Result<ObjId, OutOfMemory>
    ensures id { IfOk result (λ id. id.0 ≡ length (S.objects store.old)) }
    ensures made { let array = array_of (naming_of (S.owner store.old).0) values.now in
        OnOk result (S.objects store.new ≡ S.objects store.old ++ array ∷ []) }
    ensures party { S.owner store.new ≡ S.owner store.old }
{
    make_array(alloc, store, values)
}
