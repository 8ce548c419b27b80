// Laws of the definitions.

ghost use Rattle.std.specs.Prelude.{◌≡◌, ℕ, suc, false};
ghost use Rattle.js_cover.specs.Refined.{is_covered, refined_to, target};
ghost use Rattle.js_tree.specs.declared.tree.Expr.TheVariants as expr;
ghost use Rattle.js_tree.specs.declared.tree.Expr.{Expr};
ghost use Rattle.js_tree.specs.declared.tree.Identifier.{Identifier};
ghost use Rattle.js_tree.specs.declared.tree.Pattern.TheVariants as pattern;

/// A name is bound, and what covers neither a name nor a pattern stays whole as a target.
pub fn what_covers_no_pattern_stays()
    ensures name { (n : ℕ) (i : Identifier) → refined_to (suc n) (expr.Name i) ≡ pattern.Bound i }
    ensures others { (n : ℕ) (e : Expr) → is_covered e ≡ false → refined_to n e ≡ target e }
{}
