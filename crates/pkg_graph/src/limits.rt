// The limits on packages, and what is told of them.

/// How many packages an application has at most, its own among them.
pub const PACKAGE_LIMIT: usize = 1_000;

/// What the limit on packages is called.
pub const PACKAGES: &str = "packages";

/// What the limit on the bytes of a file is called.
pub const FILE: &str = "file";

/// How the application's folder is told.
pub const APPLICATION: &str = ".";

/// The canonical name of the application's own package.
pub const APPLICATION_NAME: &str = "$root$";
