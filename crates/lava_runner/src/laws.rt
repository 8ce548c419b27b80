// Laws of the runs of applications.

ghost use Rattle.lava_runner.specs.Endings.{One_ending};
ghost use Rattle.lava_runner.specs.Isolated.{Each_run_isolates, Runs_are_isolated, Same_packages_same_runs, Same_packages_same_views};

use lava_driver::js_run_laws::{
    cut_off_is_its_own, each_has_its_view, each_is_its_own, each_shows_its_own, journal_is_chain,
    journal_is_lawful, journal_is_net, same_things_same_runs, same_things_same_views,
};
use lava_packages::lava_start::laws::runs_are_well_made;

/// The run of the network comes to one ending at most. So each ending has its status, and no other one.
#[tactic(none)]
pub fn one_ending()
    ensures { One_ending }
{}

/// Each application of a run is isolated: the laws of isolation hold of it, each import is allowed by the merged row of the package that asks, and the common part is that of lockdown.
#[tactic(none)]
pub fn runs_are_isolated()
    ensures { Runs_are_isolated }
{
    journal_is_net();
    each_is_its_own();
    cut_off_is_its_own();
    journal_is_lawful();
    journal_is_chain();
    each_has_its_view();
    each_shows_its_own();
    runs_are_well_made();
}

/// Each run of a loaded application by its merged policy is isolated, in both modes.
#[tactic(none)]
pub fn each_run_isolates()
    ensures { Each_run_isolates }
{
    runs_are_isolated();
}

/// Two runs that have a package of the same things, each under its own number: what it sends is settled by what came to it, whatever else the applications load.
#[tactic(none)]
pub fn same_packages_same_runs()
    ensures { Same_packages_same_runs }
{
    same_things_same_runs();
    runs_are_well_made();
}

/// The same in views, where own objects and symbols are numbered in the order of their leaving.
#[tactic(none)]
pub fn same_packages_same_views()
    ensures { Same_packages_same_views }
{
    same_things_same_views();
    runs_are_well_made();
}
