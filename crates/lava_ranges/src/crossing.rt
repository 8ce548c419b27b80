// Crossings.

ghost use Rattle.std.specs.Prelude.{◌≡◌, ◌<◌, ◌≤◌, true, false, length};
ghost use Rattle.js_text.specs.CommonPaths.{common_paths};
ghost use Rattle.js_desc.specs.declared.crossing.CrossBody.TheVariants as body;
ghost use Rattle.lava_trace.specs.Courses.{is_make};
ghost use Rattle.lava_trace.specs.declared.left.TheConstants.{MAX_PARTY};
ghost use Rattle.lava_ranges.specs.Ranges.{Has_path, HavePaths, IsInRange, Ranged_body};

use crate::answer::is_sound_reply;
use crate::ask::{has_target, is_sound_ask, makes_party};
use js_desc::ask::Ask;
use js_desc::crossing::{CrossBody, Crossing};
use js_text::common::common_path;
use lava_base::ids::{CommonId, PartyId, Ref};
use lava_base::list::List;
use lava_base::marks::Marks;

/// The last number of a party that a line can have.
pub(crate) const LAST_PARTY: u32 = 4095;

/// Whether a line can have the number of a party.
fn is_party(party: PartyId) -> bool
    ensures { result ≡ true → party.0 ≤ MAX_PARTY }
{
    party.0 <= LAST_PARTY
}

/// Whether an ask with its target is in range, and makes no party.
fn is_ask_in_range(target: &Option<Ref>, ask: &Ask) -> bool
    ensures { let made = is_make (body.Ask target.now ask.now) in
        result ≡ true → Ranged_body (body.Ask target.now ask.now) × (made ≡ false) }
{
    if makes_party(ask) {
        return false;
    }
    has_target(target, ask) && is_sound_ask(ask)
}

/// Whether what crosses is in range, and makes no party.
fn is_body_in_range(body: &CrossBody) -> bool
    ensures { result ≡ true → Ranged_body body.now × (is_make body.now ≡ false) }
{
    match body {
        CrossBody::Ask { target, ask } => is_ask_in_range(target, ask),
        CrossBody::Answer(reply) => is_sound_reply(reply),
    }
}

/// Whether the line of a crossing keeps to what can be read back. A machine that keeps to the language crosses nothing else: integers are safe, and texts that write an index are keys as indices. No party makes another one yet.
pub fn is_in_range(crossing: &Crossing) -> bool
    ensures { result ≡ true → IsInRange crossing.now }
{
    is_party(crossing.from) && is_party(crossing.to) && is_body_in_range(&crossing.body)
}

/// Whether there is such a path of the common part.
fn is_path(id: CommonId) -> bool
    ensures { result ≡ true → id.0 < length common_paths }
{
    match common_path(id) {
        Some(_) => true,
        None => false,
    }
}

/// Whether an object of the common part has a path there.
fn has_path(reference: Ref) -> bool
    ensures { result ≡ true → Has_path reference }
{
    match reference {
        Ref::Common(id) => is_path(id),
        Ref::Own { .. } => true,
    }
}

/// Whether each reference whose marks are listed has a path, if it is one of the common part.
pub fn have_paths(listed: &List<(Ref, Marks)>) -> bool
    ensures { result ≡ true → HavePaths listed.now }
{
    for entry in listed.as_slice() {
        if !has_path(entry.0) {
            return false;
        }
    }
    true
}
