// The command `lava check DIR`.

ghost use Rattle.std.specs.Prelude.{◌≡◌, ◌++◌, ℕ, List, IfOk, OnOk};
ghost use Rattle.lava_streams.specs.Outside.{Stand, outside};
ghost use Rattle.policy_gen.specs.Denials.{denied_in};
ghost use Rattle.lava_policy.specs.CheckAnswers.{CheckAnswers, CheckComes, CheckDecides, CheckDenies, CheckFinishes, CheckPrints, denied_line, denied_text};

use crate::policy_outcome::{PolicyOutcome, report_policy};
use lava_base::list::List;
use lava_base::memory::OutOfMemory;
use lava_report::lava_loading::laws::one_loading;
use lava_report::lava_loading::loading::{LoadedApplication, load_application};
use lava_streams::fault::Failed;
use lava_streams::folder::Folder;
use lava_streams::sink::Sink;
use policy_gen::denial::Denied;
use policy_gen::denied::denied;
use std::alloc::Global;

/// How each line begins; the package and the request follow.
pub const DENIED_START: &str = "denied ";

/// Appends the line of a request that is denied.
fn push_denied(text: &mut List<u8>, item: &Denied) -> Result<(), OutOfMemory>
    ensures { OnOk result (text.new ≡ text.old ++ denied_line item.now) }
{
    text.extend_from_slice(DENIED_START.as_bytes())?;
    text.extend_from_slice(item.package.as_str().as_bytes())?;
    text.push(b' ')?;
    text.extend_from_slice(item.request.as_str().as_bytes())?;
    text.push(b'\n')
}

/// The lines of these requests.
fn denied_text(alloc: Global, items: &[Denied]) -> Result<List<u8>, OutOfMemory>
    ensures { IfOk result (λ text. text ≡ denied_text items.now) }
{
    let mut text = List::new(alloc);
    for item in items {
        push_denied(&mut text, item)?;
    }
    Ok(text)
}

/// Prints the lines of these requests; nothing where there is none.
fn print_denied<O: Sink>(alloc: Global, items: &List<Denied>, out: &mut O) -> PolicyOutcome
    ensures { CheckPrints items.now (O.stand out.old) (O.stand out.new) result }
{
    if items.is_empty() {
        return PolicyOutcome::Finished;
    }
    match denied_text(alloc, items.as_slice()) {
        Ok(text) => match out.put(text.as_slice()) {
            Ok(()) => PolicyOutcome::Denied,
            Err(Failed) => PolicyOutcome::OutputFailed,
        },
        Err(OutOfMemory) => PolicyOutcome::OutOfMemory,
    }
}

/// What the policy of an application denies of it. The application is let go.
fn denied_of(alloc: Global, loaded: LoadedApplication) -> Result<List<Denied>, OutOfMemory>
    ensures { IfOk result (λ items. items ≡ denied_in loaded.app loaded.policy) }
{
    let items = denied(alloc, &loaded.app, &loaded.policy);
    loaded.discard();
    items
}

/// Prints what the policy of an application denies of it. The application is let go.
fn print_loaded<O: Sink>(alloc: Global, loaded: LoadedApplication, out: &mut O) -> PolicyOutcome
    ensures { let items = denied_in loaded.app loaded.policy in
        CheckPrints items (O.stand out.old) (O.stand out.new) result }
{
    match denied_of(alloc, loaded) {
        Ok(items) => print_denied(alloc, &items, out),
        Err(OutOfMemory) => PolicyOutcome::OutOfMemory,
    }
}

/// How the command ends. What it leaves is said whatever the errors stand at.
fn outcome_of<F: Folder, O: Sink>(
    alloc: Global,
    directory: &str,
    folder: &mut F,
    out: &mut O,
) -> PolicyOutcome
    ensures comes { (err new_err : Stand (List ℕ)) →
        let before = outside (F.stand folder.old) (O.stand out.old) err in
        let after = outside (F.stand folder.new) (O.stand out.new) new_err in
        CheckComes directory.now before after result }
    ensures folder { (F.stand folder.new).told ≡ (F.stand folder.old).told }
{
    match load_application(alloc, directory, folder) {
        Ok(loaded) => print_loaded(alloc, loaded, out),
        Err(fault) => PolicyOutcome::Refused(fault),
    }
}

/// Prints a line `denied PACKAGE REQUEST` for each literal request of a module that is reached in the application of a directory and that its policy denies, by package and then by request, in byte order, each once, all in one piece; nothing where there is none. Gives the exit status.
///
/// The statuses: 0 nothing is denied, 3 nothing was loaded, 4 a policy file is refused, 7 a call on an object of the outside failed, 8 a line was printed, 9 want of memory.
pub fn check<F: Folder, O: Sink, E: Sink>(
    alloc: Global,
    directory: &str,
    folder: &mut F,
    out: &mut O,
    err: &mut E,
) -> u8
    // Each answer has its cause.
    ensures answers { let before = outside (F.stand folder.old) (O.stand out.old)
        (E.stand err.old) in
        let after = outside (F.stand folder.new) (O.stand out.new) (E.stand err.new) in
        CheckAnswers directory.now before after result }
    // Each cause has its answer, and no other one beside it.
    ensures decides { let before = outside (F.stand folder.old) (O.stand out.old)
        (E.stand err.old) in
        let after = outside (F.stand folder.new) (O.stand out.new) (E.stand err.new) in
        CheckDecides directory.now before after result }
    // Where there is no cause of a refusal, what is denied is printed, or there was no memory.
    ensures finishes { let before = outside (F.stand folder.old) (O.stand out.old)
        (E.stand err.old) in
        let after = outside (F.stand folder.new) (O.stand out.new) (E.stand err.new) in
        CheckFinishes directory.now before after result }
    // The status is 8 only where a line was printed.
    ensures denies { let before = outside (F.stand folder.old) (O.stand out.old)
        (E.stand err.old) in
        let after = outside (F.stand folder.new) (O.stand out.new) (E.stand err.new) in
        CheckDenies directory.now before after result }
    ensures folder { (F.stand folder.new).told ≡ (F.stand folder.old).told }
{
    one_loading();
    let outcome = outcome_of(alloc, directory, folder, out);
    report_policy(alloc, outcome, err)
}
