// Laws of the grammar, of its levels and of its semicolons.
ghost use Rattle.js_grammar.specs.Laws.{Good, Exact, Read, Stands_whole, Kept, Kept_back, Low, Low_enough, Flatly, Looks_ahead, Begun, Refused, Inserted_read, Read_inserted, One_tree, Same_read, Ends_whole};
ghost use Rattle.js_grammar.specs.Profile.{Deep_told, Form_told};
ghost use Rattle.js_grammar.specs.Expressions.{Expression_begun, Expression_refused, Expression_read, Expression_whole, Expression_one, Expression_same, Expression_deep, Expression_forms};

/// The reader takes exactly the tokens that have a partial tree, and a module stands whole exactly where the tokens have a tree.
pub fn exactly()
    ensures good { Good }
    ensures exact { Exact }
    ensures read { Read }
    ensures whole { Stands_whole }
    ensures ended { Ends_whole }
{}

/// A token whose terminal hangs on the next one, as `get` before a property name, has a partial tree exactly where it has one without regard to
/// that: so which token is the first impossible one does not hang on what comes behind it.
pub fn prefixes()
    ensures kept { Kept }
    ensures back { Kept_back }
{}

/// What stands and what is open is at most n levels deep exactly where the tokens have a partial tree of at most n levels.
pub fn levels()
    ensures low { Low }
    ensures enough { Low_enough }
{}

/// The program's partial tree, without trees and with one list of events, does what the reader of trees does, and the look ahead tells it.
pub fn flatly()
    ensures same { Flatly }
    ensures ahead { Looks_ahead }
{}

/// With semicolons inserted the reader takes exactly the tokens that have a partial tree, and reads exactly those that have a tree: one at most.
pub fn semicolons()
    ensures begun { Begun }
    ensures refused { Refused }
    ensures read { Inserted_read }
    ensures whole { Read_inserted }
    ensures one { One_tree }
    ensures same { Same_read }
{}

/// What the program tells of levels and of forms that are left out is so of all tokens that it may have taken.
pub fn limits()
    ensures deep { Deep_told }
    ensures forms { Form_told }
{}

/// With semicolons inserted, the reader that begins where an expression is wanted takes exactly the tokens that have a partial tree of one, and the
/// end may follow exactly where they have a tree: one at most, behind which no semicolon may stand.
pub fn expressions()
    ensures begun { Expression_begun }
    ensures refused { Expression_refused }
    ensures read { Expression_read }
    ensures whole { Expression_whole }
    ensures one { Expression_one }
    ensures same { Expression_same }
{}

/// What the program tells of levels and of forms that are left out is so of all tokens of an expression that it may have taken.
pub fn expression_limits()
    ensures deep { Expression_deep }
    ensures forms { Expression_forms }
{}
