// What a walk over a source finds.

use js_text::text::Text;
use lava_base::place::Place;
use sqlite_items::Items;

/// A declaration: the number of its scope, from the outermost, and how many names of that scope stand before it.
#[derive(Clone, Copy, Debug, PartialEq, Eq)]
pub struct Binding {
    pub scope: usize,
    pub at: usize,
}

/// A use of a name, with the static members behind it.
#[derive(Drop)]
pub struct NameUse {
    pub name: Text,
    pub place: Place,
    pub members: Items<Text>,
    /// Its declaration, or none where it is free.
    pub declaration: Option<Binding>,
    /// Whether the path is assigned.
    pub writes: bool,
}

/// A call of the module's own `require` with a string first, and the place of the call.
#[derive(Drop)]
pub struct ModuleRequest {
    pub text: Text,
    pub place: Place,
}

#[derive(Drop)]
pub enum Finding {
    Used(NameUse),
    Requested(ModuleRequest),
}
