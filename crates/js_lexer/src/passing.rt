// The spot behind what stands between two cursors.

ghost use Rattle.std.specs.Prelude.{◌≡◌, ◌≤◌, ℕ, ◌++◌, List};
ghost use Rattle.js_lexer.specs.Spots.{IsSound, over_all, size_of};

use crate::cursor::Cursor;
use crate::spot::{MAX_SOURCE, Spot};

/// The spot behind the characters that stand between two cursors of one text.
pub fn passed(spot: Spot, from: &Cursor, to: &Cursor) -> Spot
    requires behind { (w : List ℕ) × (from.now ≡ w ++ to.now) }
    requires sound { IsSound spot }
    requires room { size_of spot from.now ≤ MAX_SOURCE }
    ensures over { (w : List ℕ) → from.now ≡ w ++ to.now → result ≡ over_all spot w }
    ensures sound { IsSound result }
    ensures room { size_of result to.now ≡ size_of spot from.now }
{
    let mut rest = from.copy();
    let mut spot = spot;
    let end = to.left();
    while rest.left() > end {
        match rest.bump() {
            Some(c) => spot = spot.over(c),
            None => unreachable!(),
        }
    }
    spot
}
