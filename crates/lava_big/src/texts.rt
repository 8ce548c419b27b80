// What stands in the files of the application.

/// The directory of the application.
pub const BIG_DIRECTORY: &str = "app";

/// The path of its manifest.
pub const ROOT_MANIFEST: &str = "app/package.json";

/// The path of its main module.
pub const ROOT_INDEX: &str = "app/index.js";

/// The path of its policy.
pub const POLICY_FILE: &str = "app/lavamoat/node/policy.json";

/// How the path of a file of a package begins; the package's number follows.
pub const PACKAGE_PATH: &str = "app/node_modules/p";

/// How the path of a package's manifest ends.
pub const MANIFEST_PATH: &str = "/package.json";

/// How the path of a package's module ends.
pub const INDEX_PATH: &str = "/index.js";

/// How a manifest begins; its dependencies follow.
pub const MANIFEST_START: &str = "{\"dependencies\":{";

/// How a dependency begins; the number of the package follows.
pub const DEPENDENCY_START: &str = "\"p";

/// How a dependency ends.
pub const DEPENDENCY_END: &str = "\":\"1.0.0\"";

/// How a manifest ends.
pub const MANIFEST_END: &str = "}}";

/// How the policy begins; its rows follow.
pub const POLICY_START: &str = "{\"resources\":{";

/// How a row begins; the number of its package follows.
pub const ROW_START: &str = "\"p";

/// What follows in a row; the number of the package that may be imported follows.
pub const ROW_ALLOWS: &str = "\":{\"packages\":{\"p";

/// How a row ends.
pub const ROW_END: &str = "\":true}}";

/// How the policy ends.
pub const POLICY_END: &str = "}}";

/// How the main module begins; the number of the last package follows.
pub const ROOT_START: &str = "const p = require('p";

/// What follows in the main module; how often it calls the last package follows.
pub const ROOT_CALLS: &str = "'); let s = 0; for (let i = 0; i < ";

/// How the main module ends.
pub const ROOT_END: &str = "; i++) s += p.f(i); console.log(s);";

/// The module of the first package.
pub const FIRST_SOURCE: &str = "exports.f = x => x + 1;";

/// How the module of another package begins; the number of the package before it follows.
pub const LINKED_START: &str = "const q = require('p";

/// What follows in such a module; the package's own number follows.
pub const LINKED_ADDS: &str = "'); exports.f = x => q.f(x) + ";

/// How such a module ends.
pub const LINKED_END: &str = ";";
