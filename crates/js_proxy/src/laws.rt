// Laws of the definitions.

ghost use Rattle.js_proxy.specs.Laws.{Revoked_proxies_answer_nothing};

/// A revoked proxy answers no method, and asks nothing.
#[tactic(none)]
pub fn revoked_proxies_answer_nothing<R, S>()
    ensures { Revoked_proxies_answer_nothing R S }
{}
