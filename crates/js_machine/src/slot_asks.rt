// Natives that ask a `Slot`: where their object is from is seen first, and only what doesn't cross is charged here.

/// What a native that asks a `Slot` does once the marks of its first operand are seen.
#[derive(Clone, Copy, Debug, PartialEq, Eq)]
pub enum SlotStep {
    /// Its first operand is asked.
    Asks,
    /// It tells a truth value.
    Tells { truth: bool },
    /// A fault; whether it is that an operand is of a kind that does not convert.
    Refuses { converts: bool },
}
