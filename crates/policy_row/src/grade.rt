// The grades of an entry, and the kinds of entries that a row has.

ghost use Rattle.std.specs.Prelude.{◌≡◌};
ghost use Rattle.policy_row.specs.Names.{kind_name};
ghost use Rattle.policy_row.specs.Rows.{is_granting, is_write, greater};

/// What an entry of a row says.
#[derive(Clone, Copy, Debug, PartialEq, Eq)]
pub enum Grade {
    /// `false`: denied.
    No,
    /// `true`: granted.
    Yes,
    /// `"write"`: granted, with leave to write. It stands in `globals` alone.
    Write,
}

/// A kind of entries (LavaMoat, "Policy file").
#[derive(Clone, Copy, Debug, PartialEq, Eq)]
pub enum Kind {
    /// Built-in modules and their members.
    Builtin,
    /// Globals and their members.
    Globals,
    /// Other packages.
    Packages,
}

impl Grade {
    /// Whether it grants at all.
    pub fn is_granting(self) -> bool
        ensures { result ≡ is_granting self }
    {
        match self {
            Grade::No => false,
            Grade::Yes | Grade::Write => true,
        }
    }

    /// Whether it grants writing.
    pub fn is_write(self) -> bool
        ensures { result ≡ is_write self }
    {
        match self {
            Grade::No | Grade::Yes => false,
            Grade::Write => true,
        }
    }

    /// The greater of two, in the order of the variants.
    pub fn greater(self, other: Grade) -> Grade
        ensures { result ≡ greater self other }
    {
        match self {
            Grade::No => other,
            Grade::Yes => {
                if other.is_write() {
                    Grade::Write
                } else {
                    Grade::Yes
                }
            }
            Grade::Write => Grade::Write,
        }
    }
}

impl Kind {
    /// The key of this kind in a row.
    pub fn name(self) -> &'static str
        ensures { result.now ≡ kind_name self }
    {
        match self {
            Kind::Builtin => "builtin",
            Kind::Globals => "globals",
            Kind::Packages => "packages",
        }
    }
}
