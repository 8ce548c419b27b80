// What is wrong with a policy file.

ghost use Rattle.std.specs.Prelude.{◌≡◌};
ghost use Rattle.policy_row.specs.Names.{file_name, what_name, shown_word};

use lava_base::memory::OutOfMemory;
use lava_base::name::Name;
use std::fmt;
use thiserror::Error;

/// Which of the two policy files.
#[derive(Clone, Copy, Debug, PartialEq, Eq)]
pub enum PolicyFile {
    /// `policy.json`, which is made by looking at the packages.
    Main,
    /// `policy-override.json`, which is written by hand and prevails.
    Override,
}

/// What is wrong.
#[derive(Clone, Copy, Debug, PartialEq, Eq)]
pub enum PolicyWhat {
    /// The file is not JSON as `serde_json` reads it.
    Json,
    /// A value is none of those that may stand there.
    Value,
}

/// Why a policy is not read.
#[derive(Drop, Error)]
pub enum PolicyFault {
    /// The file is no policy. The row is that of the value, and empty where there is none; the key is its kind, or kind, point and key, and empty where there is none.
    #[error("policy {} {} {} {}", .file.name(), shown(row), shown(key), .what.name())]
    Bad {
        file: PolicyFile,
        row: Name,
        key: Name,
        what: PolicyWhat,
    },
    /// There was no memory.
    #[error("out of memory")]
    OutOfMemory,
}

impl PolicyFile {
    /// The file's name.
    pub fn name(self) -> &'static str
        ensures { result.now ≡ file_name self }
    {
        match self {
            PolicyFile::Main => "policy.json",
            PolicyFile::Override => "policy-override.json",
        }
    }
}

impl PolicyWhat {
    /// The word that tells it.
    pub fn name(self) -> &'static str
        ensures { result.now ≡ what_name self }
    {
        match self {
            PolicyWhat::Json => "json",
            PolicyWhat::Value => "value",
        }
    }
}

/// A row or a key as a line shows it: `-` where it is empty.
pub fn shown(name: &Name) -> &str
    ensures { result.now ≡ shown_word name.now }
{
    if name.as_str().is_empty() {
        return "-";
    }
    name.as_str()
}

impl fmt::Debug for PolicyFault {
    fn fmt<W: fmt::Write>(&self, f: &mut fmt::Formatter<W>) -> fmt::Result {
        write!(f, "{self}")
    }
}

impl From<OutOfMemory> for PolicyFault {
    ghost use Rattle.std.specs.Prelude.{◌≡◌};
    ghost use Rattle.policy_row.specs.declared.fault.PolicyFault.TheVariants as fault;

    ghost from_gives = { λ _ f. f ≡ fault.OutOfMemory };

    fn from(_: OutOfMemory) -> PolicyFault {
        PolicyFault::OutOfMemory
    }
}
