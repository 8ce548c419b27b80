// Scopes of forms that go on in place.

ghost use Rattle.std.specs.Prelude.{◌≡◌, IfOk, None, OnOk, false, is_some, replicate};
ghost use Rattle.js_code.specs.Decoded.{term_at};
ghost use Rattle.js_direct.specs.Direct.{value_of};
ghost use Rattle.js_in_place.specs.InPlace.{LedTo};
ghost use Rattle.js_machine.specs.Bodies.{scope_of};
ghost use Rattle.js_machine.specs.Views.{party_of, with_copy, with_local};
ghost use Rattle.js_machine.specs.js_run.Acts.{Give, give};
ghost use Rattle.js_machine.specs.js_run.Control.{inside};
ghost use Rattle.js_machine.specs.js_run.Parties.{refreshed};
ghost use Rattle.js_state.specs.Scopes.{outwards, slot_of};
ghost use Rattle.js_text.specs.declared.value.Value.TheVariants as value_kind;

use crate::spot::{Stand, at_value};
use crate::waits::wait;
use js_direct::plain::{Plain, as_value};
use js_machine::frame::Frame;
use js_machine::machine::Machine;
use js_machine_statements::blocks::enter;
use js_machine_statements::slots::stand_in;
use js_store::store::Store;
use lava_base::memory::OutOfMemory;

/// The body that runs enters a copy of the scope where it stands.
#[inline]
pub fn enter_copy<S: Store>(machine: &mut Machine<S>) -> Result<(), OutOfMemory>
    ensures { OnOk result (machine.new ≡ with_copy machine.old) }
{
    let here = machine.standing();
    let scope = machine.scopes.open_copy(here)?;
    stand_in(machine, scope);
    Ok(())
}

/// Whether a slot so many hops outwards is initialised.
#[inline]
pub fn has_local<S: Store>(machine: &Machine<S>, hops: u32, slot: u32) -> bool
    ensures { let scope = outwards machine.now.scopes hops (scope_of machine.now.bodies) in
        result ≡ is_some (slot_of machine.now.scopes scope slot) }
{
    let scope = machine.scopes.outward(machine.standing(), hops);
    machine.scopes.value(scope, slot).is_some()
}

/// Gives a slot so many hops outwards a value.
#[inline]
pub fn write_local<S: Store>(machine: &mut Machine<S>, hops: u32, slot: u32, value: Plain)
    ensures { let scopes = with_local machine.old hops slot (value_of value) in
        machine.new ≡ record machine.old { scopes = scopes } }
{
    let scope = machine.scopes.outward(machine.standing(), hops);
    machine.scopes.write(scope, slot, as_value(value));
}
