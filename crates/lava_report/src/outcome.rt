// How a run of a folder ends.

use crate::report::Report;
use js_fault::fault::SyntaxWhat;
use lava_base::name::Name;
use lava_base::place::Place;
use lava_loading::policies::PoliciesFault;
use pkg_graph::fault::GraphFault;
use pkg_load::fault::LoadFault;

/// A run that is over, and the name of the party in which it ended.
#[derive(Drop)]
pub struct Ended {
    pub report: Report,
    pub name: Name,
}

/// How a run of a folder ends.
#[derive(Drop)]
pub enum RunOutcome {
    /// The application ran, and its run is over.
    Ran(Ended),
    /// The packages of the folder are not read.
    Graph(GraphFault),
    /// Its policy is not read.
    Policies(PoliciesFault),
    /// Its modules are not loaded.
    Load(LoadFault),
    /// The prelude is refused: what is wrong, and at which place. It does not come.
    Prelude(Place, SyntaxWhat),
    /// There was no memory left.
    OutOfMemory,
}
