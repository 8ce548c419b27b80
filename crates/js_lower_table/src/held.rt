// Hidden slots.

/// A slot that a term is to read: how many scopes stand round its own, and its place there.
#[derive(Clone, Copy, Debug)]
pub struct Held {
    pub level: usize,
    pub slot: usize,
}
