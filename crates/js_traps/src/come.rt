// What came in answer to an ask: each kind of answer, a throw, or an answer of another kind, which does not come (ECMA-262, ReturnIfAbrupt).

ghost use Rattle.std.specs.Prelude.{◌≡◌};
ghost use Rattle.js_traps.specs.TrapDecisions.{keys_come, not_come, property_come, prototype_come, truth_come, value_come};

use crate::next::Next;
use js_desc::decision::Decision;
use js_desc::descriptor::Descriptor;
use js_desc::fault::FaultText;
use js_desc::reply::Reply;
use js_text::value::{Key, Value};
use lava_base::ids::Ref;
use lava_base::list::List;

/// A throw goes on as it is.
fn not_come<A>(reply: Reply) -> Result<A, Decision<Next>>
    ensures { result ≡ not_come reply }
{
    match reply {
        Reply::Throw(thrown) => Err(Decision::Done(Reply::Throw(thrown))),
        _ => Err(Decision::Fault(FaultText::WrongKind)),
    }
}

/// A value that came.
pub(crate) fn value_come(reply: Reply) -> Result<Value, Decision<Next>>
    ensures { result ≡ value_come reply }
{
    match reply {
        Reply::Value(value) => Ok(value),
        reply => not_come(reply),
    }
}

/// A prototype that came. None is null.
pub(crate) fn prototype_come(reply: Reply) -> Result<Option<Ref>, Decision<Next>>
    ensures { result ≡ prototype_come reply }
{
    match reply {
        Reply::Proto(proto) => Ok(proto),
        reply => not_come(reply),
    }
}

/// A truth value that came.
pub(crate) fn truth_come(reply: Reply) -> Result<bool, Decision<Next>>
    ensures { result ≡ truth_come reply }
{
    match reply {
        Reply::Flag(truth) => Ok(truth),
        reply => not_come(reply),
    }
}

/// A property that came, or none.
pub(crate) fn property_come(reply: Reply) -> Result<Option<Descriptor>, Decision<Next>>
    ensures { result ≡ property_come reply }
{
    match reply {
        Reply::Desc(property) => Ok(property),
        reply => not_come(reply),
    }
}

/// Keys that came.
pub(crate) fn keys_come(reply: Reply) -> Result<List<Key>, Decision<Next>>
    ensures { result ≡ keys_come reply }
{
    match reply {
        Reply::Keys(keys) => Ok(keys),
        reply => not_come(reply),
    }
}
