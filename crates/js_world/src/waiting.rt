// A body that waits for a reply.

use js_crossing::js_machine::own::Left;

/// What is left of a body that waits, and whose it is.
#[derive(Drop)]
pub struct Waiting {
    pub party: u32,
    pub left: Left,
}
