// The row of one package.

ghost use Rattle.std.specs.Prelude.{◌≡◌};
ghost use Rattle.policy_row.specs.Rows.{at_name};

use crate::grade::Grade;
use lava_base::list::List;
use lava_base::name::Name;

/// What a policy says of one package: of each kind the entries by their names. A row of a `Policy` has each list in byte order without repeats.
#[derive(Drop)]
pub struct Row {
    /// Globals, by name or by a path as `console.log`.
    pub globals: List<(Name, Grade)>,
    /// Built-in modules, by name or by a path as `fs.readFileSync`.
    pub builtin: List<(Name, Grade)>,
    /// Other packages, by their canonical names.
    pub packages: List<(Name, Grade)>,
}

/// What stands at a name.
pub fn grade_at(entries: &List<(Name, Grade)>, name: &str) -> Option<Grade>
    ensures { result ≡ at_name name.now entries.now }
{
    for (other, grade) in entries.as_slice() {
        if name == other.as_str() {
            return Some(*grade);
        }
    }
    None
}
