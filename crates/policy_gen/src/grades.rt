// Names with grades, while they are put together.

ghost use Rattle.std.specs.Prelude.{◌≡◌, [], is_some, IfOk, OnOk, IsTrue};
ghost use Rattle.policy_row.specs.Rows.{raised, at_name, is_in_order};

use lava_base::list::List;
use lava_base::memory::OutOfMemory;
use lava_base::name::Name;
use policy_row::entries::{list_of, raise_entry};
use policy_row::grade::Grade;
use std::alloc::Global;
use std::collections::BTreeMap;
use std::marker::Model;

/// Names in byte order, each with the greatest grade that it was raised to.
#[derive(Drop)]
pub(crate) struct Grades {
    by_name: BTreeMap<String, Grade>,
}

impl Model for Grades {
    ghost use Rattle.policy_row.specs.Rows.{Entries};
    ghost use Rattle.policy_row.specs.Texts.{by_bytes};

    ghost Value = { Entries };

    ghost view = { λ g. by_bytes g.by_name.entries };
}

impl Grades {
    /// No names. It takes no memory.
    pub(crate) fn new(alloc: Global) -> Grades
        ensures { result ≡ [] }
    {
        Grades {
            by_name: BTreeMap::new(alloc),
        }
    }

    /// Raises the grade of a name to this one where it is less, or absent.
    pub(crate) fn raise(
        &mut self,
        alloc: Global,
        name: &str,
        grade: Grade,
    ) -> Result<(), OutOfMemory>
        ensures { OnOk result (self.new ≡ raised self.old name.now grade) }
    {
        raise_entry(alloc, &mut self.by_name, name, grade)
    }

    /// Whether a name has a grade.
    pub(crate) fn has(&self, name: &str) -> bool
        ensures { result ≡ is_some (at_name name.now self.now) }
    {
        self.by_name.get(name).is_some()
    }

    /// The names with their grades as a list, in byte order.
    pub(crate) fn list(&self, alloc: Global) -> Result<List<(Name, Grade)>, OutOfMemory>
        ensures same { IfOk result (λ es. es ≡ self.now) }
        ensures in_order { IfOk result (λ es. IsTrue (is_in_order es)) }
    {
        list_of(alloc, &self.by_name)
    }
}
