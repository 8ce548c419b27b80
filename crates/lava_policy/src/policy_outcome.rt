// How the commands `lava policy DIR` and `lava check DIR` end, and what is told of that.

ghost use Rattle.lava_policy.specs.PolicyOutcomes.{PolicyReports, TellsRefusal};

use lava_host::fault::Which;
use lava_lines::status::{DENIED_STATUS, DONE_STATUS};
use lava_report::lava_loading::loading::LoadingFault;
use lava_report::outcome::RunOutcome;
use lava_report::run_report::{report_run, tell_outside};
use lava_streams::sink::Sink;
use std::alloc::Global;

/// How `lava policy DIR` or `lava check DIR` ends.
#[derive(Drop)]
pub enum PolicyOutcome {
    /// The policy was printed, or nothing is denied.
    Finished,
    /// A line was printed for each request that is denied.
    Denied,
    /// Nothing was loaded.
    Refused(LoadingFault),
    /// A call on the output failed.
    OutputFailed,
    /// There was no memory left.
    OutOfMemory,
}

/// Tells why nothing was loaded, as it is told of a run.
fn tell_refusal<E: Sink>(alloc: Global, fault: LoadingFault, err: &mut E) -> u8
    ensures { TellsRefusal fault (E.stand err.old) (E.stand err.new) result }
{
    match fault {
        LoadingFault::Graph(fault) => report_run(alloc, RunOutcome::Graph(fault), err),
        LoadingFault::Policies(fault) => report_run(alloc, RunOutcome::Policies(fault), err),
        LoadingFault::Load(fault) => report_run(alloc, RunOutcome::Load(fault), err),
    }
}

/// Tells how a command ended, and gives the exit status: nothing is told where it was finished, or printed its lines.
pub fn report_policy<E: Sink>(alloc: Global, outcome: PolicyOutcome, err: &mut E) -> u8
    ensures { PolicyReports outcome (E.stand err.old) (E.stand err.new) result }
{
    match outcome {
        PolicyOutcome::Finished => DONE_STATUS,
        PolicyOutcome::Denied => DENIED_STATUS,
        PolicyOutcome::Refused(fault) => tell_refusal(alloc, fault, err),
        PolicyOutcome::OutputFailed => tell_outside(alloc, Which::Output, err),
        PolicyOutcome::OutOfMemory => report_run(alloc, RunOutcome::OutOfMemory, err),
    }
}
