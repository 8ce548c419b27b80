// The name of the party in which a run ended.

ghost use Rattle.std.specs.Prelude.{◌≡◌, IfOk};
ghost use Rattle.lava_report.specs.Tells.{EndsAs, ended_in, party_name};

use crate::outcome::{Ended, RunOutcome};
use crate::report::Report;
use js_crossing::ending::Ending;
use lava_base::memory::OutOfMemory;
use lava_base::name::Name;
use lava_lines::status::{HOST_PARTY, ROOT_PACKAGE};
use pkg_graph::graph::Package;
use std::alloc::Global;

/// The name of a party: the host's, or that of its package.
fn party_name(alloc: Global, packages: &[Package], party: u32) -> Result<Name, OutOfMemory>
    ensures { IfOk result (λ name. name ≡ party_name packages.now party) }
{
    if party == 0 {
        return Name::of(alloc, HOST_PARTY);
    }
    match packages.get((party - 1) as usize) {
        Some(read) => read.name.copy(),
        None => Name::of(alloc, ROOT_PACKAGE),
    }
}

/// The name of the party in which a run ended; one that was answered ended in the host.
fn ended_in(alloc: Global, packages: &[Package], ending: Ending) -> Result<Name, OutOfMemory>
    ensures { IfOk result (λ name. name ≡ ended_in packages.now ending) }
{
    match ending {
        Ending::Done => Name::of(alloc, HOST_PARTY),
        Ending::Uncaught => Name::of(alloc, HOST_PARTY),
        Ending::Budget(party) => party_name(alloc, packages, party),
        Ending::Fault(party, _) => party_name(alloc, packages, party),
    }
}

/// A run that is over, with the name of the party in which it ended.
pub fn ended(alloc: Global, packages: &[Package], report: Report) -> RunOutcome
    ensures { EndsAs packages.now report result }
{
    match ended_in(alloc, packages, report.ending) {
        Ok(name) => RunOutcome::Ran(Ended { report, name }),
        Err(_) => RunOutcome::OutOfMemory,
    }
}
