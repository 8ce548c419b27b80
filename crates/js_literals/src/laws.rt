// Laws of what literals are worth.

ghost use Rattle.std.specs.Prelude.{◌≡◌, ◌==◌, ℕ, ℤ, pos, true, not, List, [], ◌∷◌, ◌++◌, map, codes};
ghost use Rattle.std.specs.Fmt.{decimal};
ghost use Rattle.std.specs.List.{list_all};
ghost use Rattle.js_num.specs.StringToNumber.{AtMostOne};
ghost use Rattle.js_text.specs.Utf8.{utf16_of};
ghost use Rattle.lava_base.specs.SafeIntegers.{IsSafe};
ghost use Rattle.js_literals.specs.Escapes.{character_escape};
ghost use Rattle.js_literals.specs.NumericValues.{IsMv};
ghost use Rattle.js_literals.specs.Plain.{is_itself};
ghost use Rattle.js_literals.specs.StringValues.{sv, tv, is_end};
ghost use Rattle.js_literals.specs.declared.pieces.Delimiter.TheVariants as delimiters;

/// The characters of the standard's table of single escapes, and `0`, stand behind a backslash for those that it says; and every other one for itself.
pub fn escapes_by_the_table()
    ensures table { map character_escape (codes "0btnvfr") ≡ 0 ∷ 8 ∷ 9 ∷ 10 ∷ 11 ∷ 12 ∷ 13 ∷ [] }
    ensures others { (c : ℕ) → list_all (λ e. not (e == c)) (codes "0btnvfr") ≡ true
        → character_escape c ≡ c }
{}

/// A literal or a part of a template in which each character stands for itself is worth these characters in UTF-16.
pub fn characters_for_themselves()
    ensures strings { (quote : ℕ) (cs : List ℕ) → list_all (is_itself (delimiters.Quote quote)) cs ≡ true
        → sv (quote ∷ (cs ++ quote ∷ [])) ≡ utf16_of cs }
    ensures templates { (first : ℕ) (cs close : List ℕ) → list_all (is_itself delimiters.Template) cs ≡ true
        → is_end delimiters.Template close ≡ true → tv (first ∷ (cs ++ close)) ≡ utf16_of cs }
{}

/// A literal writes one number at most, and the decimal digits of a safe integer that is not negative write it.
pub fn one_number_each()
    ensures one { (literal : List ℕ) → AtMostOne (IsMv literal) }
    ensures digits { (n : ℕ) → IsSafe (pos n) → IsMv (decimal n) (pos n) }
{}
