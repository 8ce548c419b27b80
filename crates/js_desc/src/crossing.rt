// What crosses between two parties.

use crate::ask::Ask;
use crate::reply::Reply;
use lava_base::ids::{MadeSymbol, PartyId, Ref};

/// What one party hands to another.
#[derive(Drop)]
pub enum CrossBody<R = Ref, S = MadeSymbol> {
    /// An ask at an object of the receiver, or at the receiver itself where the target is None.
    Ask { target: Option<R>, ask: Ask<R, S> },
    /// The answer to the latest open ask that the sender received.
    Answer(Reply<R, S>),
}

/// A step of control, with what it carries, from one party to another.
#[derive(Drop)]
pub struct Crossing<R = Ref, S = MadeSymbol> {
    pub from: PartyId,
    pub to: PartyId,
    pub body: CrossBody<R, S>,
}
