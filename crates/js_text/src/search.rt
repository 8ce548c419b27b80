// Where a part stands in a text.

ghost use Rattle.std.specs.Prelude.{◌≡◌, ◌≢◌, ◌+◌, ◌<◌, ◌≤◌, length, slice_index};
ghost use Rattle.js_text.specs.Fronts.{AreFrontsOf, StandsUpTo};
ghost use Rattle.js_text.specs.Search.{IsFirstPlace};
ghost use Rattle.js_text.specs.declared.text.TheConstants.{MAX_UNITS};

use crate::fronts::{PeriodicFront, PeriodicFronts, TIMES};
use crate::reader::UnitReader;
use crate::text::Text;

/// The least place at `from` or after it where a part stands that is not empty.
///
/// Each unit of the text is compared about once (Galil and Seiferas, "Saving space in fast string-matching"): where a part has begun to stand and then does not, it moves on by its period, or, where it has no short one, by more than a quarter of what stood.
pub(crate) fn first_place(text: &Text, part: &Text, from: u32) -> Option<u32>
    requires some { 0 < length part.now }
    requires room { from + length part.now ≤ length text.now }
    ensures first { IsFirstPlace text.now part.now from result }
{
    let wanted = part.len();
    let last = text.len() - wanted;
    let first = part.unit(0);
    let fronts = fronts_of(part);
    let mut units = UnitReader::new(text);
    let mut front = UnitReader::new(part);
    let mut matched = 0;
    let mut at = from;
    while at <= last {
        matched = standing(&mut units, at, &mut front, matched);
        if matched == wanted {
            return Some(at);
        }
        if matched == 0 {
            at = text.next_place(at + 1, first);
            continue;
        }
        let next = fronts.advance(matched);
        at += next.places;
        matched = next.kept;
    }
    None
}

/// The fronts of a part that repeat: it is searched for in itself.
fn fronts_of(part: &Text) -> PeriodicFronts
    requires { 0 < length part.now }
    ensures { AreFrontsOf part.now result }
{
    let most = part.len() / TIMES;
    let mut fronts = PeriodicFronts::new();
    let mut ahead = UnitReader::new(part);
    let mut front = UnitReader::new(part);
    let mut matched = 0;
    while fronts.below() <= most {
        let period = fronts.below();
        matched = standing(&mut ahead, period, &mut front, matched);
        let reach = period + matched;
        if !fronts.learn(PeriodicFront { period, reach }) {
            return fronts;
        }
        let next = fronts.advance(matched);
        fronts.pass(next.places);
        matched = next.kept;
    }
    fronts
}

/// How many of a part's first units stand at a place, where the first `known` do, as far as there are units.
fn standing(units: &mut UnitReader, at: u32, part: &mut UnitReader, known: u32) -> u32
    requires within { (at + known ≤ length units.old) × (known ≤ length part.old) }
    requires known { StandsUpTo units.old part.old at known }
    ensures within { (at + result ≤ length units.old) × (result ≤ length part.old) }
    ensures stands { StandsUpTo units.old part.old at result }
    ensures ends { at + result < length units.old → result < length part.old
        → slice_index part.old result ≢ slice_index units.old (at + result) }
    ensures texts { (units.new ≡ units.old) × (part.new ≡ part.old) }
{
    let most = part.len().min(units.len() - at);
    for done in known..most {
        if units.unit(at + done) != part.unit(done) {
            return done;
        }
    }
    most
}
