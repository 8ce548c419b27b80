// A lowering of trees to a depth: what a rule of the table is given for the trees below its own.

/// A lowering of trees to a depth, by a function value that meets `Nests`.
#[derive(Clone, Copy)]
pub struct Lowerer<F> {
    pub depth: usize,
    pub low: F,
}
