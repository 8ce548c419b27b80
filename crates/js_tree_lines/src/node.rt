// What has a line.

use js_term::term::{Part, Template, Term};

/// A term, a part of one, a template, arguments as one array, or an operand that is not there.
#[derive(Clone, Copy, Drop)]
pub enum Node<'a> {
    OneTerm(&'a Term),
    OnePart(&'a Part),
    OneTemplate(&'a Template),
    SpreadArray(&'a Term),
    Absent,
}

/// A node that is still to be written, so many levels deep.
#[derive(Clone, Copy, Drop)]
pub struct PendingLine<'a> {
    pub depth: usize,
    pub node: Node<'a>,
}
