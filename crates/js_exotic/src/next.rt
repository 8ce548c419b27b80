// What a decision that waits needs to go on.

ghost use Rattle.std.specs.Prelude.{◌≡◌};
ghost use Rattle.js_exotic.specs.Verdicts.{as_exotic};

use js_desc::decision::Decision;
use js_desc::descriptor::PartialDescriptor;
use js_ordinary::next::Next as OrdinaryNext;
use lava_base::ids::{MadeSymbol, Ref};

/// What a decision waits for: the answer to what came with it.
#[derive(Drop)]
pub enum Next<R = Ref, S = MadeSymbol> {
    /// What an ordinary object's decision waits for.
    Ordinary(OrdinaryNext<R, S>),
    /// The number that is to be the `length` of the array `me`, by this definition of it.
    Length {
        me: R,
        descriptor: PartialDescriptor<R, S>,
    },
}

/// A decision of an ordinary object as one of any object.
pub(crate) fn as_exotic(decision: Decision<OrdinaryNext>) -> Decision<Next>
    ensures { result ≡ as_exotic decision }
{
    match decision {
        Decision::Done(reply) => Decision::Done(reply),
        Decision::Fault(text) => Decision::Fault(text),
        Decision::Ask { target, ask, next } => Decision::Ask {
            target,
            ask,
            next: Next::Ordinary(next),
        },
        Decision::Number { value, next } => Decision::Number {
            value,
            next: Next::Ordinary(next),
        },
        Decision::Run {
            body,
            this,
            args,
            new_target,
        } => Decision::Run {
            body,
            this,
            args,
            new_target,
        },
        Decision::End(kind) => Decision::End(kind),
    }
}
