// Errors that the machine throws.

ghost use Rattle.std.specs.Prelude.{◌≡◌, ◌++◌, ◌∷◌, [], IfOk, OnOk, length, codes, nat_eq};
ghost use Rattle.js_text.specs.Naming.{naming_of};
ghost use Rattle.js_operation.specs.js_run.Faults.{error_object, error_prototype, faults};
ghost use Rattle.js_machine.specs.Steps.{bare_error, error_with, message_key, LeadsTo, with_error};
ghost use Rattle.js_machine.specs.Views.{party_of};
ghost use Rattle.js_machine.specs.declared.frame.Mode.TheVariants as mode;

use crate::frame::{Halt, Mode, halt_number};
use crate::machine::Machine;
use js_desc::descriptor::{Change, Descriptor};
use js_desc::fault::{FaultText, NativeError};
use js_operation::js_run::intrinsics::{
    RANGE_ERROR_PROTOTYPE, REFERENCE_ERROR_PROTOTYPE, SYNTAX_ERROR_PROTOTYPE, TYPE_ERROR_PROTOTYPE,
};
use js_store::slot::Slot;
use js_store::store::Store;
use js_text::fault::TextFault;
use js_text::text::{Text, from_units};
use js_text::value::{Key, Value};
use lava_base::ids::{CommonId, ObjId, PartyId, Ref};
use lava_base::marks::{Class, Marks};
use lava_base::memory::OutOfMemory;
use std::alloc::Global;

/// The units of the name `message`.
static MESSAGE: [u16; 7] = [109, 101, 115, 115, 97, 103, 101];

/// The key `message`.
pub fn message_key(alloc: Global) -> Result<Key, OutOfMemory>
    ensures { IfOk result (λ k. k ≡ message_key) }
{
    match from_units(alloc, &MESSAGE) {
        Ok(text) => Ok(Key::Text(text)),
        Err(_) => Err(OutOfMemory),
    }
}

/// The prototype of an error.
fn error_prototype(error: NativeError) -> u32
    ensures { result ≡ error_prototype error }
{
    match error {
        NativeError::TypeError => TYPE_ERROR_PROTOTYPE,
        NativeError::RangeError => RANGE_ERROR_PROTOTYPE,
        NativeError::SyntaxError => SYNTAX_ERROR_PROTOTYPE,
        NativeError::ReferenceError => REFERENCE_ERROR_PROTOTYPE,
    }
}

/// Whether the errors of a party are frozen: those of the host are, as all its objects.
fn has_frozen_errors(party: PartyId) -> bool
    ensures { result ≡ nat_eq party.0 0 }
{
    party.0 == 0
}

/// Makes an error without a message.
#[tactic(auto, using(crate::proofs::Faulted::last_changed, crate::proofs::Faulted::last_within))]
fn bare_error<S: Store>(store: &mut S, prototype: Ref, frozen: bool) -> Result<ObjId, OutOfMemory>
    ensures id { IfOk result (λ id. id.0 ≡ length (S.objects store.old)) }
    ensures made { let object = bare_error frozen prototype in
        OnOk result (S.objects store.new ≡ S.objects store.old ++ object ∷ []) }
    ensures party { S.owner store.new ≡ S.owner store.old }
{
    let marks = Marks {
        class: Class::Error,
        callable: false,
        constructor: false,
    };
    let id = store.make(Some(prototype), marks, Slot::Plain)?;
    if frozen {
        store.prevent(id);
    }
    Ok(id)
}

/// Makes an error in a store, which is frozen where the host runs.
#[tactic(auto, using(crate::proofs::Faulted::last_changed, crate::proofs::Faulted::last_within))]
pub fn add_error<S: Store>(
    store: &mut S,
    prototype: Ref,
    key: Key,
    message: Text,
) -> Result<ObjId, OutOfMemory>
    requires { key ≡ message_key }
    ensures id { IfOk result (λ id. id.0 ≡ length (S.objects store.old)) }
    ensures made { let object = error_with (nat_eq (S.owner store.old).0 0) prototype message in
        OnOk result (S.objects store.new ≡ S.objects store.old ++ object ∷ []) }
    ensures party { S.owner store.new ≡ S.owner store.old }
{
    let frozen = has_frozen_errors(store.party());
    let id = bare_error(store, prototype, frozen)?;
    let property = Descriptor::Data {
        value: Value::Text(message),
        writable: !frozen,
        enumerable: false,
        configurable: !frozen,
    };
    store.apply(id, key, Change::Write(property))?;
    Ok(id)
}

impl<S: Store> Machine<S> {
    /// Makes an error with a message.
    pub fn make_error(&mut self, error: NativeError, message: Text) -> Result<Ref, OutOfMemory>
        ensures name { let me = naming_of self.old.me in
            IfOk result (λ r. r ≡ me.own (length self.old.objects)) }
        ensures made { let names = naming_of self.old.me in
            let frozen = nat_eq self.old.me 0 in
            let object = error_object names frozen (error_prototype error) message in
            OnOk result (self.new ≡ record self.old { objects = self.old.objects ++ object ∷ [] }) }
    {
        let prototype = Ref::Common(CommonId(error_prototype(error)));
        let key = message_key(self.alloc)?;
        let id = add_error(&mut self.store, prototype, key, message)?;
        Ok(Ref::Own {
            party: self.store.party(),
            id,
        })
    }

    /// Makes an error and throws it.
    fn throw_error(&mut self, error: NativeError, message: Text) -> Result<Mode, OutOfMemory>
        ensures mode { IfOk result (λ m. m ≡ mode.Throw) }
        ensures thrown { OnOk result (self.new ≡ with_error error message self.old) }
    {
        let error = self.make_error(error, message)?;
        self.push(Value::Ref(error))?;
        Ok(Mode::Throw)
    }

    /// Makes an error and throws it; the run ends where its text would be too long.
    #[tactic(auto, using(crate::proofs::Faulted::faulted, crate::proofs::Faulted::too_long))]
    pub fn fault(&mut self, fault: FaultText) -> Result<Mode, OutOfMemory>
        ensures { IfOk result (LeadsTo
            (λ a. faults (naming_of self.old.me) fault (party_of a self.old)) self.old self.new) }
    {
        match fault.message(self.alloc) {
            Ok(message) => self.throw_error(fault.error(), message),
            Err(TextFault::TooLong) => Ok(Mode::End(halt_number(Halt::Text))),
            Err(_) => Err(OutOfMemory),
        }
    }
}
