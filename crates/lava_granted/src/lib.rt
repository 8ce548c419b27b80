//! What the policy that the sources of an application show grants in the run itself. Laws alone: the crate has no code that runs.
//!
//! - `ReadPackages` has what holds of packages and modules that were read.
//! - `LiteralRequests` has what a call of `require` comes to, `FreeNames` what stands at a global object.
#![tactic(auto)]

ghost use Rattle.lava_granted.specs.FreeNames.{Free_names_stand, Names_are_identifiers};
ghost use Rattle.lava_granted.specs.LiteralRequests.{Errors_name_no_literal_request, Literal_requests_are_granted, Not_allowed_throws};
ghost use Rattle.lava_granted.specs.ReadPackages.{Graphs_are_read, Modules_have_their_requests};

use policy_gen::laws::{generated_policy_covers, graphs_are_named_in_order};

/// The packages that are read of a folder are in order, and their links have names.
#[tactic(none)]
pub fn graphs_are_read()
    ensures { Graphs_are_read }
{
    graphs_are_named_in_order();
}

/// A module that is read has the requests of its source.
#[tactic(none)]
pub fn modules_have_their_requests()
    ensures { Modules_have_their_requests }
{}

/// No request that a package makes by a literal is denied, and no Error says so.
#[tactic(none)]
pub fn literal_requests_are_granted()
    ensures thrown { Not_allowed_throws }
    ensures granted { Literal_requests_are_granted }
    ensures errors { Errors_name_no_literal_request }
{
    generated_policy_covers();
}

/// A name in UTF-8 without a point, which is no array index, is one that a source may write.
#[tactic(none)]
pub fn names_are_identifiers()
    ensures { Names_are_identifiers }
{}

/// The free names of a package stand at its global as a run begins.
#[tactic(none)]
pub fn free_names_stand()
    ensures { Free_names_stand }
{
    generated_policy_covers();
}
