// The command `lava policy DIR`.

ghost use Rattle.std.specs.Prelude.{◌≡◌, ℕ, List, IfOk};
ghost use Rattle.lava_streams.specs.Outside.{Stand, outside};
ghost use Rattle.lava_policy.specs.PolicyAnswers.{IsPolicyText, PolicyAnswers, PolicyComes, PolicyDecides, PolicyFinishes, PolicyPrints};

use crate::policy_outcome::{PolicyOutcome, report_policy};
use lava_base::list::List;
use lava_base::memory::OutOfMemory;
use lava_report::lava_loading::laws::one_sources;
use lava_report::lava_loading::loading::load_sources;
use lava_streams::fault::Failed;
use lava_streams::folder::Folder;
use lava_streams::sink::Sink;
use pkg_load::load::Application;
use pkg_source::code::{ModuleCode, discard};
use policy_gen::generate::generate;
use policy_row::writing::write_policy;
use std::alloc::Global;

/// The text that is printed of an application.
fn policy_text(alloc: Global, app: &Application<ModuleCode>) -> Result<List<u8>, OutOfMemory>
    ensures { IfOk result (IsPolicyText app.now) }
{
    let policy = generate(alloc, app)?;
    let mut text = write_policy(alloc, &policy)?;
    text.push(b'\n')?;
    Ok(text)
}

/// The same, and lets the application go.
fn text_of(alloc: Global, app: Application<ModuleCode>) -> Result<List<u8>, OutOfMemory>
    ensures { IfOk result (IsPolicyText app) }
{
    let text = policy_text(alloc, &app);
    discard(app);
    text
}

/// Prints the policy of an application, and lets the application go.
fn print_policy<O: Sink>(alloc: Global, app: Application<ModuleCode>, out: &mut O) -> PolicyOutcome
    ensures { PolicyPrints app (O.stand out.old) (O.stand out.new) result }
{
    match text_of(alloc, app) {
        Ok(text) => match out.put(text.as_slice()) {
            Ok(()) => PolicyOutcome::Finished,
            Err(Failed) => PolicyOutcome::OutputFailed,
        },
        Err(OutOfMemory) => PolicyOutcome::OutOfMemory,
    }
}

/// How the command ends. What it leaves is said whatever the errors stand at.
fn outcome_of<F: Folder, O: Sink>(
    alloc: Global,
    directory: &str,
    folder: &mut F,
    out: &mut O,
) -> PolicyOutcome
    ensures comes { (err new_err : Stand (List ℕ)) →
        let before = outside (F.stand folder.old) (O.stand out.old) err in
        let after = outside (F.stand folder.new) (O.stand out.new) new_err in
        PolicyComes directory.now before after result }
    ensures folder { (F.stand folder.new).told ≡ (F.stand folder.old).told }
{
    match load_sources(alloc, directory, folder) {
        Ok(app) => print_policy(alloc, app, out),
        Err(fault) => PolicyOutcome::Refused(fault),
    }
}

/// Prints the policy that is generated from the sources of the application in a directory, as `serde_json` lays JSON out, and a line feed, and gives the exit status. The policy files are passed over, whatever they hold.
///
/// The statuses: 0 the policy was printed, 3 nothing was loaded, 7 a call on an object of the outside failed, 9 want of memory.
pub fn policy<F: Folder, O: Sink, E: Sink>(
    alloc: Global,
    directory: &str,
    folder: &mut F,
    out: &mut O,
    err: &mut E,
) -> u8
    // Each answer has its cause.
    ensures answers { let before = outside (F.stand folder.old) (O.stand out.old)
        (E.stand err.old) in
        let after = outside (F.stand folder.new) (O.stand out.new) (E.stand err.new) in
        PolicyAnswers directory.now before after result }
    // Each cause has its answer, and no other one beside it.
    ensures decides { let before = outside (F.stand folder.old) (O.stand out.old)
        (E.stand err.old) in
        let after = outside (F.stand folder.new) (O.stand out.new) (E.stand err.new) in
        PolicyDecides directory.now before after result }
    // Where there is no cause of a refusal, the policy is printed, or there was no memory.
    ensures finishes { let before = outside (F.stand folder.old) (O.stand out.old)
        (E.stand err.old) in
        let after = outside (F.stand folder.new) (O.stand out.new) (E.stand err.new) in
        PolicyFinishes directory.now before after result }
    ensures folder { (F.stand folder.new).told ≡ (F.stand folder.old).told }
{
    one_sources();
    let outcome = outcome_of(alloc, directory, folder, out);
    report_policy(alloc, outcome, err)
}
