// Laws of the number of a text.

ghost use Rattle.std.specs.Prelude.{◌≡◌, ℕ, ℤ, List};
ghost use Rattle.std.specs.Fmt.{signed_decimal};
ghost use Rattle.lava_base.specs.SafeIntegers.{IsSafe};
ghost use Rattle.js_num.specs.StringToNumber.{IsNumberOf, AtMostOne};

/// A text stands for one number at most.
pub fn one_number()
    ensures { (text : List ℕ) → AtMostOne (IsNumberOf text) }
{}

/// The decimal digits of a safe integer stand for it.
pub fn number_of_its_text()
    ensures { (v : ℤ) → IsSafe v → IsNumberOf (signed_decimal v) v }
{}
