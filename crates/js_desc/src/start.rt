// What a party starts with.

use lava_base::ids::PartyId;
use lava_base::list::List;
use lava_base::name::Name;

/// What a policy grants of one global or one built-in module. The host's objects are named by their host numbers.
#[derive(Drop)]
pub enum Grant {
    /// The whole of an object of the host.
    Whole(u32),
    /// Members of an object of the host, with their host numbers.
    Part(List<(Name, u32)>),
    /// A global of the application's own package, as a property that reads it, and writes it too where `write` is true.
    Live { write: bool },
    /// Members of a global of the application's own package; the truth value says whether writing is granted.
    LivePart(List<(Name, bool)>),
}

/// What a package's row grants it, and which modules it has.
#[derive(Drop)]
pub struct Start {
    /// The canonical name.
    pub name: Name,
    /// The path of the main module.
    pub main: Name,
    pub globals: List<(Name, Grant)>,
    pub builtins: List<(Name, Grant)>,
    /// For each dependency its name, its party, and whether the row allows it.
    pub links: List<(Name, PartyId, bool)>,
    /// For each module its path and the number of its template.
    pub modules: List<(Name, u32)>,
}
