//! A party's view of a trace: what it sent and what came to it.
//!
//! - `view` gives a view, of which `view_line` has the lines. `view_page` is a body that is being written; `view_names`, `named` and `starts` have what a view names.
//! - `Views` says what a view is: what a party sent and what came to it, with its own named by their leaving and those of others by their coming.
//! - `Laws` has the statements; `Calls` a trace as a table.
#![tactic(auto)]

mod named;
mod starts;
pub mod view;
pub mod view_line;
mod view_names;
mod view_page;

ghost use Rattle.lava_view.specs.Laws.{One_view, One_view_beside_another, One_view_of_packages};

/// Two parties that see the same under other names have one view.
#[tactic(none)]
pub fn one_view()
    ensures { One_view }
{}

/// So have two packages, each in a trace of its own and under its own number.
#[tactic(none)]
pub fn one_view_of_packages()
    ensures { One_view_of_packages }
{}

/// A package that is called back has one view as party 2 and, beside another package, as party 3.
#[tactic(none)]
pub fn one_view_beside_another()
    ensures { One_view_beside_another }
{}
