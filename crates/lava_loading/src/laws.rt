// Laws of the loading of applications.

ghost use Rattle.lava_loading.specs.Laws.{One_loading, One_sources};

/// What a folder holds is loaded in one way, or refused for one cause: the first in the order of loading. Where a module is refused, its place and the reason are one, but for the name of a form that is left out: which of several at one token is told may differ.
#[tactic(none)]
pub fn one_loading()
    ensures { One_loading }
{}

/// The same of the sources alone, where the policy files are passed over.
#[tactic(none)]
pub fn one_sources()
    ensures { One_sources }
{}
