// What holds of the application of a run: laws alone.

ghost use Rattle.lava_start.specs.Laws.{Runs_are_well_made};

use crate::grant_laws::{package_names_are_all, package_names_are_known};

/// The application of each run is well made: the laws of isolation hold of it.
pub fn runs_are_well_made()
    ensures { Runs_are_well_made }
{
    package_names_are_all();
    package_names_are_known();
}
