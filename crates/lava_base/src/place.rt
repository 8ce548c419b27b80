// Places in a source.

/// A place in a source: its line, and the 16-bit unit in that line. Both count from 1.
#[derive(Clone, Copy, Debug, PartialEq, Eq)]
pub struct Place {
    pub line: u32,
    pub unit: u32,
}
