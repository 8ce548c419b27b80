// Policies, what their rows grant, and what the host answers.

mod calls;
mod files;
mod grants;
mod world;

use self::calls::{answers, answers_where_fails};
use self::files::{long_read, merged, reaches, read, written};
pub use self::grants::start_in;
use self::grants::{started, trusted};
use crate::fault::Fault;
use policy_row::fault::PolicyFile;
use std::alloc::Global;

/// `policy KIND REST`: what comes of a policy, or of calls of the host.
pub fn row(alloc: Global, line: &str) -> Result<String, Fault> {
    let (kind, rest) = line.split_once(' ').unwrap_or((line, ""));
    match kind {
        "policy" => read(alloc, PolicyFile::Main, rest),
        "override" => read(alloc, PolicyFile::Override, rest),
        "long" => long_read(alloc, rest),
        "merge" => merged(alloc, rest),
        "write" => written(alloc, rest),
        "reach" => reaches(alloc, rest),
        "start" => started(alloc, rest),
        "trusted" => trusted(alloc),
        "host" => answers(alloc, rest),
        "fails" => answers_where_fails(alloc, rest),
        _ => Err(Fault::Line),
    }
}
