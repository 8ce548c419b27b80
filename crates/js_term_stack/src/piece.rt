// What stands on a stack of terms.

use crate::pending::Pending;
use js_term::term::{Arguments, Part, Template, Term};
use sqlite_items::{Boxed, Items};

/// A term or a part of one that is not yet made.
#[derive(Drop)]
pub enum Piece {
    OneTerm(Boxed<Term>),
    MaybeTerm(Option<Boxed<Term>>),
    TermList(Items<Boxed<Term>>),
    PartList(Items<Part>),
    ArgumentList(Arguments),
    OneTemplate(Boxed<Template>),
    MaybeTemplate(Option<Boxed<Template>>),
    OnePending(Pending),
}
