// Pieces of texts, as they are stored.

ghost use Rattle.js_text.specs.Fingerprints.{word_of};
ghost use Rattle.std.specs.Prelude.{◌≡◌, ◌≢◌, ℕ, ◌+◌, ◌<◌, ◌≤◌, ◌↔◌, length, take, drop, slice_index, IsTrue};

use crate::text::Text;

/// What the second of four units counts in their number: they have 16 bits each.
const SECOND_WEIGHT: u64 = 65_536;

/// What the third one counts.
const THIRD_WEIGHT: u64 = 4_294_967_296;

/// What the fourth one counts.
const FOURTH_WEIGHT: u64 = 281_474_976_710_656;

/// Whether both have the same units. Most are compared four at a time.
#[inline]
pub(crate) fn are_same(units: &[u16], others: &[u16]) -> bool
    ensures { IsTrue result ↔ (units.now ≡ others.now) }
{
    if units.len() != others.len() {
        return false;
    }
    has_same_rest(units, others, same_words(units, others))
}

/// How many units from the first on are the same, where four are compared at a time. Those behind them may be the same too.
#[inline]
fn same_words(units: &[u16], others: &[u16]) -> usize
    requires { length others.now ≡ length units.now }
    ensures within { result ≤ length units.now }
    ensures same { take result units.now ≡ take result others.now }
{
    let mut at = 0;
    while units.len() - at >= 4 && is_same_word(units, others, at) {
        at += 4;
    }
    at
}

/// Whether four units from a place on are the same.
#[inline]
fn is_same_word(units: &[u16], others: &[u16], at: usize) -> bool
    requires { (at + 4 ≤ length units.now) × (length others.now ≡ length units.now) }
    ensures { IsTrue result → take at units.now ≡ take at others.now
        → take (at + 4) units.now ≡ take (at + 4) others.now }
{
    let word = word_of(units[at], units[at + 1], units[at + 2], units[at + 3]);
    word == word_of(others[at], others[at + 1], others[at + 2], others[at + 3])
}

/// Four units in one number.
#[inline]
fn word_of(first: u16, second: u16, third: u16, fourth: u16) -> u64
    ensures { result ≡ word_of first second third fourth }
{
    let low = first as u64 + (second as u64) * SECOND_WEIGHT;
    low + (third as u64) * THIRD_WEIGHT + (fourth as u64) * FOURTH_WEIGHT
}

/// Whether those from a place on are the same too, where all before it are.
#[inline]
fn has_same_rest(units: &[u16], others: &[u16], from: usize) -> bool
    requires within { (from ≤ length units.now) × (length others.now ≡ length units.now) }
    requires before { take from units.now ≡ take from others.now }
    ensures { IsTrue result ↔ (units.now ≡ others.now) }
{
    for at in from..units.len() {
        if units[at] != others[at] {
            return false;
        }
    }
    true
}

/// How many units stand before the first one that is this one.
pub(crate) fn count_before(units: &[u16], unit: u16) -> usize
    ensures within { result ≤ length units.now }
    ensures before { (k : ℕ) → k < result → slice_index units.now k ≢ unit }
{
    for (at, other) in units.iter().enumerate() {
        if *other == unit {
            return at;
        }
    }
    units.len()
}

/// The units of both texts from a place on in each, as far as both are stored in one piece.
pub(crate) fn even_runs<'a>(a: &'a Text, at: u32, b: &'a Text, place: u32) -> (&'a [u16], &'a [u16])
    requires { (at < length a.now) × (place < length b.now) }
    ensures first { result.0.now ≡ take (length result.0.now) (drop at a.now) }
    ensures second { result.1.now ≡ take (length result.0.now) (drop place b.now) }
    ensures even { length result.1.now ≡ length result.0.now }
    ensures some { 0 < length result.0.now }
    ensures within { (at + length result.0.now ≤ length a.now)
        × (place + length result.0.now ≤ length b.now) }
{
    let first = a.run_at(at);
    let second = b.run_at(place);
    let count = first.len().min(second.len());
    (&first[..count], &second[..count])
}
