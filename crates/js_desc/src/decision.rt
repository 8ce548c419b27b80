// What an object decides when it is asked.

use crate::ask::Ask;
use crate::fault::FaultText;
use crate::reply::Reply;
use js_text::value::Value;
use lava_base::ids::{MadeSymbol, Ref};
use lava_base::list::List;

/// The body of a function: the number of its template and the number of the scope that it was made in.
#[derive(Clone, Copy, Debug, PartialEq, Eq)]
pub struct BodyId {
    pub template: u32,
    pub scope: u32,
}

/// How a run ends within a party: with a result that is no safe integer, or with a text past the limit.
#[derive(Clone, Copy, Debug, PartialEq, Eq)]
pub enum EndKind {
    Number,
    Text,
}

/// What one object answers to one ask, or what it does next. `N` is what a decision that waits needs to go on.
#[derive(Drop)]
pub enum Decision<N, R = Ref, S = MadeSymbol> {
    /// The answer.
    Done(Reply<R, S>),
    /// An error with this text is made and thrown.
    Fault(FaultText),
    /// An ask comes first; then the decision goes on with its answer. The target is None where a party is asked.
    Ask {
        target: Option<R>,
        ask: Ask<R, S>,
        next: N,
    },
    /// A value is made a number first (ECMA-262, ToNumber); then the decision goes on with the number, which comes as `Reply::Value`. The value is no integer, since that is its own number.
    Number {
        value: Value<R, S>,
        next: N,
    },
    /// A body runs, and what it gives is the answer. The new target is there for Construct alone.
    Run {
        body: BodyId,
        this: Value<R, S>,
        args: List<Value<R, S>>,
        new_target: Option<R>,
    },
    /// The run ends.
    End(EndKind),
}
