// What a native that waits needs to go on. It is plain data.

use js_conversions::next::Next as Conversion;
use lava_base::ids::Ref;

/// What a native waits for: the answer to the ask that came with it.
#[derive(Clone, Copy)]
pub enum Next<R = Ref> {
    /// Its answer is that of the ask.
    Answer,
    /// Whether a proxy, of which this is told, stands before an array.
    KindTold { callable: bool },
    /// What the conversion of an error's message waits for.
    Message { proto: R, conversion: Conversion<R> },
}
