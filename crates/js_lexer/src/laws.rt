// Laws of tokens.

ghost use Rattle.std.specs.Prelude.{◌≡◌, ℕ, List};
ghost use Rattle.js_lexer.specs.Sources.{IsTokens};
ghost use Rattle.js_lexer.specs.declared.token.Token.{Token};

/// A source has one list of tokens at most.
pub fn one_list()
    ensures { (source : List ℕ) (a b : List Token) → IsTokens source a → IsTokens source b → a ≡ b }
{}
