//! The parties of a run are connected: each thing that a party begins with, and each link over which it may import, leads to a party that is there, and no link leads back. Laws alone: the crate has no code that runs.
//!
//! - `Links` has where links lead, and the statements.
#![tactic(auto)]

ghost use Rattle.lava_connected.specs.Links.{Graphs_are_linked, Runs_are_connected};

use lava_packages::lava_start::grant_laws::package_names_are_known;

/// The application of each run whose links lead on is connected.
#[tactic(none)]
pub fn runs_are_connected()
    ensures { Runs_are_connected }
{
    package_names_are_known();
}

/// The links of the packages that were read lead on.
#[tactic(none)]
pub fn graphs_are_linked()
    ensures { Graphs_are_linked }
{}
