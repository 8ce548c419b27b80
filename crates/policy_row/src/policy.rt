// A policy: rows by package.

ghost use Rattle.std.specs.Prelude.{◌≡◌, [], IfSome, OnOk, OnErr, IsTrue};
ghost use Rattle.std.specs.Option.{option_copied};
ghost use Rattle.policy_row.specs.Rows.{at_name, with_entry, is_kept, may_reach, row_grants};

use crate::row::{Row, grade_at};
use lava_base::memory::OutOfMemory;
use lava_base::name::Name;
use std::alloc::Global;
use std::collections::BTreeMap;
use std::marker::Model;

/// The canonical name of the application's own package.
pub const ROOT: &str = "$root$";

/// The rows of packages by their canonical names, which contracts see as a list in byte order.
///
/// Each list of a row stands in byte order without repeats, and `Grade::Write` in `globals` alone.
#[derive(Drop)]
pub struct Policy {
    pub(crate) rows: BTreeMap<String, Row>,
}

impl Model for Policy {
    ghost use Rattle.std.specs.Prelude.{IsTrue};
    ghost use Rattle.std.specs.List.{list_all};
    ghost use Rattle.policy_row.specs.Rows.{Rows, is_kept};
    ghost use Rattle.policy_row.specs.Texts.{by_bytes};

    ghost Value = { Rows };

    ghost view = { λ p. by_bytes p.rows.entries };

    ghost invariant = { λ p. IsTrue (list_all (λ e. is_kept e.1) p.rows.entries) };
}

impl Policy {
    /// The policy without a row. It takes no memory.
    pub fn new(alloc: Global) -> Policy
        ensures { result ≡ [] }
    {
        Policy {
            rows: BTreeMap::new(alloc),
        }
    }

    /// The row of a package, if it has one.
    pub fn row(&self, package: &Name) -> Option<&Row>
        ensures found { option_copied result ≡ at_name «package».now self.now }
        ensures kept { IfSome result (λ row. IsTrue (is_kept row.now)) }
    {
        self.row_named(package.as_str())
    }

    /// The same by the text of the name.
    pub(crate) fn row_named(&self, name: &str) -> Option<&Row>
        ensures found { option_copied result ≡ at_name name.now self.now }
        ensures kept { IfSome result (λ row. IsTrue (is_kept row.now)) }
    {
        self.rows.get(name)
    }

    /// Gives a package a row, in place of one that it has. After a refusal the policy is as before, and the row is dropped.
    pub fn put(&mut self, alloc: Global, package: &str, row: Row) -> Result<(), OutOfMemory>
        requires { IsTrue (is_kept row) }
        ensures ok { OnOk result (self.new ≡ with_entry self.old «package».now row) }
        ensures err { OnErr result (self.new ≡ self.old) }
    {
        self.rows.insert(String::from_str(alloc, package)?, row)?;
        Ok(())
    }

    /// Whether a package may import another one: the application's own may import each, another one those that its row grants.
    pub fn may_import(&self, package: &Name, linked: &Name) -> bool
        ensures { result ≡ may_reach self.now «package».now linked.now }
    {
        package.as_str() == ROOT || grants_package(self.row(package), linked)
    }
}

/// Whether a row grants a package.
fn grants_package(row: Option<&Row>, linked: &Name) -> bool
    ensures { result ≡ row_grants linked.now (option_copied row.entry) }
{
    match row {
        None => false,
        Some(row) => match grade_at(&row.packages, linked.as_str()) {
            None => false,
            Some(grade) => grade.is_granting(),
        },
    }
}
