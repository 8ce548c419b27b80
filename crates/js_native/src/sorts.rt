// The places of texts in the order of the texts.

ghost use Rattle.std.specs.Prelude.{◌≡◌, ◌<◌, ◌^◌, Some, refl, length, map, nat_eq, IfOk};
ghost use Rattle.std.specs.Cmp.{on_equiv, on_per, on_po, on_total, partial_equiv_from_equiv};
ghost use Rattle.std.specs.Cmp.Lexicographic.{nat_list_cmp_total, nat_list_eq_equiv, pointwise, slice_cmp, texts_po, texts_ties};
ghost use Rattle.std.specs.Ordering.{nat_cmp};
ghost use Rattle.js_native.specs.SortedPlaces.{IsSortedPlaces, placed_texts};

use js_text::text::Text;
use lava_base::list::List;
use lava_base::memory::OutOfMemory;
use std::alloc::Global;
use std::cmp::Ordering;

/// A text that is ordered by its units (ECMA-262, IsLessThan, of two Strings).
#[derive(Drop)]
pub struct OrderedText(Text);

/// A text with its place in a list: ordered by the text, and equal ones by their places.
#[derive(Drop, PartialEq, Eq, PartialOrd, Ord)]
pub struct PlacedText {
    text: OrderedText,
    place: u32,
}

impl PartialEq for OrderedText {
    ghost eq = { λ a b. pointwise nat_eq a.0 b.0 };

    ghost laws = { on_per (λ t. t.0) (partial_equiv_from_equiv nat_list_eq_equiv) };

    fn eq(&self, other: &OrderedText) -> bool {
        self.0.is_same(&other.0)
    }
}

impl Eq for OrderedText {
    ghost laws = { on_equiv (λ t. t.0) nat_list_eq_equiv };
}

impl PartialOrd for OrderedText {
    ghost partial_cmp = { λ a b. Some (slice_cmp nat_cmp a.0 b.0) };

    ghost laws = { on_po (λ t. t.0) texts_po };

    fn partial_cmp(&self, other: &OrderedText) -> Option<Ordering> {
        Some(self.0.compare(&other.0))
    }
}

impl Ord for OrderedText {
    ghost cmp = { λ a b. slice_cmp nat_cmp a.0 b.0 };

    ghost total = { on_total (λ t. t.0) nat_list_cmp_total };

    ghost matches_partial_cmp = { λ a b. refl };

    ghost matches_eq = { λ a b. texts_ties a.0 b.0 };

    fn cmp(&self, other: &OrderedText) -> Ordering {
        self.0.compare(&other.0)
    }
}

/// The texts with their places.
#[tactic(auto, using(crate::proofs::Placed_laws::placed_step, crate::proofs::Placed_laws::placed_all))]
fn placed_texts(alloc: Global, texts: &List<Text>) -> Result<Vec<PlacedText>, OutOfMemory>
    requires { length texts.now < 2 ^ 32 }
    ensures { IfOk result (λ placed. placed.items ≡ placed_texts 0 texts.now) }
{
    let mut placed = Vec::with_capacity(alloc, texts.len())?;
    for at in 0..texts.len() {
        let text = OrderedText(texts.item(at).copy()?);
        placed.push(PlacedText {
            text,
            place: at as u32,
        })?;
    }
    Ok(placed)
}

/// The places of placed texts.
fn places_of(alloc: Global, placed: &[PlacedText]) -> Result<Vec<u32>, OutOfMemory>
    ensures { IfOk result (λ places. places.items ≡ map (λ p. p.place) placed.now) }
{
    let mut places = Vec::with_capacity(alloc, placed.len())?;
    for text in placed {
        places.push(text.place)?;
    }
    Ok(places)
}

/// The places of texts in the order of the texts, unit by unit; those of equal texts in the order of the places (ECMA-262, SortIndexedProperties).
pub fn sorted_places(alloc: Global, texts: &List<Text>) -> Result<Vec<u32>, OutOfMemory>
    requires { length texts.now < 2 ^ 32 }
    ensures { IfOk result (λ places. IsSortedPlaces texts.now places.items) }
{
    let mut placed = placed_texts(alloc, texts)?;
    placed.sort()?;
    places_of(alloc, &placed)
}
