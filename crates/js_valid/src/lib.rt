// Valid terms: what a template has to be for the machine to run it.
//
// - `surrounding` has what stands round a term, `question` what is asked of it.
// - `inner` has what stands inside a term, and `work` what is still to be looked at.
// - `own` has the rules on one term, part or template, `valid` the test of a whole template.
#![tactic(auto)]

pub mod inner;
pub mod own;
pub mod question;
pub mod surrounding;
pub mod valid;
pub mod work;
