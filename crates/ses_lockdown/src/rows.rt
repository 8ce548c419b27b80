// Rows of the tables.

ghost use Rattle.std.specs.Prelude.{◌≡◌, [], map, get_or};
ghost use Rattle.ses_lockdown.specs.Permits.{no_permit, no_place, place_at, row_of, permit_at};
ghost use Rattle.ses_lockdown.specs.Intrinsics.{name_at};
ghost use Rattle.ses_lockdown.specs.Lockdown.{role_at};

use crate::names::NAMES;
use crate::permits::PERMITS;
use crate::places::PLACES;
use crate::table::{Holder, KeySort, Kind, Override, Permit, Place, Role, Stands};

/// The row of a place in a table of permits, or one of no meaning past its end.
fn row_at(rows: &[Permit], at: usize) -> Permit
    ensures { row_of result ≡ get_or (map row_of rows.now) at no_permit }
{
    if at < rows.len() {
        rows[at]
    } else {
        (
            Holder::EachFunction,
            KeySort::Named,
            "",
            Stands::Empty,
            Override::Stays,
        )
    }
}

/// The permit of a place in the table.
pub(crate) fn permit(at: usize) -> Permit
    ensures { row_of result ≡ permit_at at }
{
    row_at(&PERMITS, at)
}

/// The row of a place in a table of places, or one of no meaning past its end.
fn place_in(rows: &[Place], at: usize) -> Place
    ensures { result ≡ get_or rows.now at no_place }
{
    if at < rows.len() {
        rows[at]
    } else {
        (Kind::Ordinary, None, Role::Given)
    }
}

/// The row of a common object: what sort of object it is, where its prototype stands, and where its body comes from. One past the end has no body.
#[tactic(auto, unfolding(crate::specs::Permits::places))]
pub fn place(at: u32) -> Place
    ensures { result ≡ place_at at }
{
    place_in(&PLACES, at as usize)
}

/// Where the body of a common object comes from.
pub(crate) fn role(at: u32) -> Role
    ensures { result ≡ role_at at }
{
    place(at).2
}

/// The text of a place, or the empty one past the end.
fn text_at(texts: &[&'static str], at: usize) -> &'static str
    ensures { result.now ≡ get_or (map (λ text. text.now) texts.now) at [] }
{
    if at < texts.len() { texts[at] } else { "" }
}

/// The name of the function of a place, which is empty past the end (ECMA-262, SetFunctionName).
pub fn name_at(place: u32) -> &'static str
    ensures { result.now ≡ name_at place }
{
    text_at(&NAMES, place as usize)
}
