// A request that a policy denies.

use lava_base::name::Name;

/// The place of the application's own package among the packages.
pub const OWN_PLACE: usize = 0;

/// A literal request that a policy denies.
#[derive(Drop)]
pub struct Denied {
    /// The canonical name of the package whose module requests it.
    pub package: Name,
    /// The text of the request.
    pub request: Name,
}
