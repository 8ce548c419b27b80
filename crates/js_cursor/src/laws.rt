// A law of expressions.
ghost use Rattle.js_cursor.specs.Laws.{One_run, One_expression};

use js_grammar::laws::expressions;

/// Some tokens have one longest run that has a partial tree of an expression, and begin with one expression at most, which has one tree: so what
/// `expression` answers, and what it leaves, is settled by the tokens.
pub fn one_expression()
    ensures run { One_run }
    ensures tree { One_expression }
{
    expressions();
}
