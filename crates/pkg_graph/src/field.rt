// The fields of a manifest.

ghost use Rattle.std.specs.Prelude.{◌≡◌};
ghost use Rattle.pkg_graph.specs.Manifests.{field_text};

/// The field of the path of the package's main module.
pub const MAIN: &str = "main";

/// The field of the packages that the package needs.
pub const DEPENDENCIES: &str = "dependencies";

/// The field of the packages that the package uses where they are there.
pub const OPTIONAL_DEPENDENCIES: &str = "optionalDependencies";

/// The field of the packages that the package uses beside it.
pub const PEER_DEPENDENCIES: &str = "peerDependencies";

/// A field of a manifest that is read, or the manifest itself.
#[derive(Clone, Copy, Debug, PartialEq, Eq)]
pub enum Field {
    /// The manifest itself.
    Whole,
    /// The path of the package's main module.
    Main,
    /// The packages that it needs.
    Dependencies,
    /// The packages that it uses where they are there.
    OptionalDependencies,
    /// The packages that it uses beside it.
    PeerDependencies,
}

impl Field {
    /// The name of the field, which is empty for the manifest itself.
    pub fn text(self) -> &'static str
        ensures { result.now ≡ field_text self }
    {
        match self {
            Field::Whole => "",
            Field::Main => MAIN,
            Field::Dependencies => DEPENDENCIES,
            Field::OptionalDependencies => OPTIONAL_DEPENDENCIES,
            Field::PeerDependencies => PEER_DEPENDENCIES,
        }
    }
}
