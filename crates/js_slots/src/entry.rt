// The places of tables.

use js_text::value::Value;
use lava_base::ids::{MadeSymbol, Ref};

/// One place of a table. A place that is not live was deleted; it stays, so that the places after it keep their numbers, and keeps nothing.
#[derive(Drop)]
pub struct TableEntry<R = Ref, S = MadeSymbol> {
    pub key: Value<R, S>,
    pub value: Value<R, S>,
    pub live: bool,
}
