// Laws of the definitions.

ghost use Rattle.std.specs.Prelude.{IsTrue};
ghost use Rattle.ses_lockdown.specs.Accessors.{Lockdown_calls_repairs, PropertiesStay};
ghost use Rattle.ses_lockdown.specs.Apart.{all_apart};
ghost use Rattle.ses_lockdown.specs.Entries.{Lockdown_orders};
ghost use Rattle.ses_lockdown.specs.Laws.{Lockdown_locks, MarksStay, Lockdown_once, Lockdown_drops};
ghost use Rattle.ses_lockdown.specs.Permits.{permits};
ghost use Rattle.ses_lockdown.specs.Repairs.{Lockdown_repairs};

use js_store::laws::{own_after_a_change, written_keeps_places};
use js_text::common::common_paths_rise;
use lava_base::ids::{MadeSymbol, Ref};

/// What lockdown gives stands locked, whatever the intrinsics are.
pub fn lockdown_locks()
    ensures { Lockdown_locks }
{}

/// No key stands twice among the permits of one object.
pub fn permits_are_apart()
    ensures { IsTrue (all_apart permits) }
{}

/// The marks of the common objects are those of the table of places, whatever functions come, and after lockdown.
pub fn marks_stay()
    ensures { MarksStay }
{}

/// A locked list is locked already: locking its intrinsics again leaves it as it is.
pub fn lockdown_once()
    ensures { Lockdown_once }
{
    own_after_a_change::<Ref, MadeSymbol>();
    written_keeps_places::<Ref, MadeSymbol>();
}

/// What lockdown makes of the properties that it changes: each of one of the seven prototypes is an accessor, whose functions keep what stood there, tamed.
pub fn lockdown_repairs()
    ensures { Lockdown_repairs }
{
    common_paths_rise();
    own_after_a_change::<Ref, MadeSymbol>();
    written_keeps_places::<Ref, MadeSymbol>();
}

/// The properties of the common objects are those of the tables, whatever functions come: none has a setter, and those of the seven prototypes hold values.
pub fn properties_stay()
    ensures { PropertiesStay }
{}

/// Once such objects are locked, what all inherit from calls the functions of lockdown alone.
pub fn lockdown_calls_repairs()
    ensures { Lockdown_calls_repairs }
{
    own_after_a_change::<Ref, MadeSymbol>();
    written_keeps_places::<Ref, MadeSymbol>();
}

/// Of functions that stand behind the common objects lockdown keeps nothing.
pub fn lockdown_drops_others()
    ensures { Lockdown_drops }
{}

/// The properties of a locked object stand in the order of the permits, each what stood there before, locked.
pub fn lockdown_orders()
    ensures { Lockdown_orders }
{
    own_after_a_change::<Ref, MadeSymbol>();
    written_keeps_places::<Ref, MadeSymbol>();
}
