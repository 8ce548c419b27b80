// The exit statuses, and the texts of which lines are made.

/// The exit status of a run or a report that was finished.
pub const DONE_STATUS: u8 = 0;

/// The exit status where a run threw what nothing caught.
pub const UNCAUGHT_STATUS: u8 = 1;

/// The exit status where the words are no command.
pub const USAGE_STATUS: u8 = 2;

/// The exit status where no program could be loaded.
pub const LOADING_STATUS: u8 = 3;

/// The exit status where a policy file is refused.
pub const POLICY_STATUS: u8 = 4;

/// The exit status where a run met a limit of the language.
pub const LIMIT_STATUS: u8 = 5;

/// The exit status where the budget was used up.
pub const BUDGET_STATUS: u8 = 6;

/// The exit status where a call on an object of the outside failed.
pub const OUTSIDE_STATUS: u8 = 7;

/// The exit status of a `check` that printed a line.
pub const DENIED_STATUS: u8 = 8;

/// The exit status for want of memory.
pub const MEMORY_STATUS: u8 = 9;

/// The line where the words are no command.
pub const USAGE_LINE: &str = "usage: lava COMMAND ARG [--budget N]\n";

/// The line for want of memory.
pub const MEMORY_LINE: &str = "lava: out of memory\n";

/// How the line of a thrown value begins; the value follows as `console` prints it.
pub const UNCAUGHT_START: &str = "lava: uncaught ";

/// How the line of a bad manifest begins; its directory and the field follow.
pub const MANIFEST_START: &str = "lava: manifest ";

/// How the line of a policy file that is refused begins; the file, the row, the key and what is wrong follow.
pub const POLICY_START: &str = "lava: policy ";

/// How the line of a limit begins; what is counted and the count follow.
pub const TOO_MANY_START: &str = "lava: too many ";

/// How the line of what is not there begins; the package and the request follow.
pub const MISSING_START: &str = "lava: missing ";

/// How the line of a source that is refused begins; package, module, place and what is wrong follow.
pub const SYNTAX_START: &str = "lava: syntax ";

/// How the line of a fault of the outside begins; its object follows.
pub const OUTSIDE_START: &str = "lava: outside ";

/// How each line of a run that was ended begins; the ending and the package follow.
pub const LINE_START: &str = "lava: ";

/// What stands between an ending and its package.
pub const ENDED_IN: &str = " in ";

/// The name of the application's own package.
pub const ROOT_PACKAGE: &str = "$root$";

/// The name of the host as a party.
pub const HOST_PARTY: &str = "$host$";

/// What is wrong: the bytes are not UTF-8.
pub const NOT_UTF8: &str = "not utf-8";

/// What is wrong: no token of the language.
pub const BAD_TOKEN: &str = "bad token";

/// What is wrong: a form that the language leaves out; its name follows.
pub const LEFT_OUT: &str = "unsupported ";

/// What is wrong: a token with which no source goes on.
pub const UNEXPECTED: &str = "unexpected";

/// What is wrong: more than 256 levels.
pub const TOO_DEEP: &str = "too deep";

/// What is wrong: an early error; its name follows.
pub const EARLY: &str = "early ";
