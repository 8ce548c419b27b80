// What holds of the common part of a run: laws alone.

ghost use Rattle.lava_packages.specs.Laws.{Common_part_calls_repairs, Common_templates_are_valid};

use ses_lockdown::laws::lockdown_calls_repairs;
use ses_prelude::laws::{preludes_have_marks, preludes_have_properties};

/// What all objects inherit from calls the functions of lockdown alone, where a property is got or set.
#[tactic(none)]
pub fn common_part_calls_repairs()
    ensures { Common_part_calls_repairs }
{
    preludes_have_marks();
    preludes_have_properties();
    lockdown_calls_repairs();
}

/// The templates of the common part are valid, with all templates inside.
#[tactic(none)]
pub fn common_templates_are_valid()
    ensures { Common_templates_are_valid }
{}
