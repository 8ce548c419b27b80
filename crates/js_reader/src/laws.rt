// A law of terminals.
ghost use Rattle.std.specs.Prelude.{◌≡◌, ℕ, List as Listed, []};
ghost use Rattle.js_grammar.specs.Table.{plain_of};
ghost use Rattle.js_lexer.specs.declared.token.Token.{Token};
ghost use Rattle.js_reader.specs.Terminals.{terminal_of};

/// Without regard to what stands behind it, the terminal of a token is that before nothing. So js_grammar's law `prefixes` says that a token
/// has a partial tree whatever is behind it.
pub fn plain_terminals()
    ensures { (source : Listed ℕ) (t : Token) (later : Listed Token) →
        plain_of (terminal_of source t later) ≡ terminal_of source t [] }
{}
