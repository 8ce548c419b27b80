// Lines of a view.

use lava_base::list::List;

/// A crossing, as a party sees it.
#[derive(Drop)]
pub struct ViewLine {
    /// Whether the party sent it.
    pub sent: bool,
    /// The steps of the party at that moment, where the trace has them. No trace has them yet.
    pub steps: Option<u64>,
    /// What crossed, as in a trace, but for the names.
    pub body: List<u8>,
}
