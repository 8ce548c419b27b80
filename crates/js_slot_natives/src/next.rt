// What a native on a keyed collection waits for.

/// What a native waits for: the answer to the ask that came with it.
#[derive(Clone, Copy, Debug, PartialEq, Eq)]
pub enum Next {
    /// Its answer is that of the ask.
    Answer,
}
