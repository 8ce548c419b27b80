// Laws of preludes.

ghost use Rattle.ses_prelude.specs.Laws.{One_prelude, Each_has_its_body, Preludes_have_marks, Preludes_have_properties};

use js_program::laws::one_tree;
use ses_lockdown::laws::{marks_stay, properties_stay};

/// A text makes one list of intrinsics at most.
#[tactic(none)]
pub fn one_prelude()
    ensures { One_prelude }
{
    one_tree();
}

/// The templates are those of the functions of the text, in its order, and each common object to which the text gives a body has that of a function that stands there.
#[tactic(none)]
pub fn each_has_its_body()
    ensures { Each_has_its_body }
{}

/// The common objects that a text makes have the marks of the table of places. So lockdown of the intrinsics of the locked list gives an equal list
/// (`again` of `ses_lockdown::lockdown::lockdown`).
#[tactic(none)]
pub fn preludes_have_marks()
    ensures { Preludes_have_marks }
{
    marks_stay();
}

/// So do they have the properties and prototypes of the tables: none has a setter, and those of the seven prototypes hold values.
#[tactic(none)]
pub fn preludes_have_properties()
    ensures { Preludes_have_properties }
{
    properties_stay();
}
