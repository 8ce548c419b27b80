// The common part: the intrinsics before lockdown, and what lockdown makes of them (SES, lockdown).
//
// - `permits` is the one table of what the common objects may have, `places` the table of these objects and `names` that of their names;
//   `table` has the types of the rows, `rows` reads them, and `words` makes keys of them.
// - `intrinsics` has the common objects before lockdown: `initial` makes them by the tables, `copied` reads them off a locked list.
// - `lockdown` makes each common object anew, with the properties of its permits alone; `locked_property` is what becomes of one property,
//   and `making` how an object gets it.
// - `laws` states how a locked list stands.
//
// Definitions are in specs/: `Permits` has the tables, `Intrinsics` the objects before lockdown, `Lockdown` its steps, `Laws` what follows.
#![tactic(auto)]

mod copied;
mod initial;
pub mod intrinsics;
pub mod laws;
pub mod lockdown;
mod locked_property;
mod making;
pub mod names;
pub mod permits;
pub mod places;
pub mod rows;
pub mod table;
mod words;
