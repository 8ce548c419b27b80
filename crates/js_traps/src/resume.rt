// How a decision goes on that waits for more than a trap to be found.

ghost use Rattle.std.specs.Prelude.{◌≡◌, IfOk};
ghost use Rattle.js_text.specs.Naming.{naming_of};
ghost use Rattle.js_operations.specs.Looks.{marks_seen};
ghost use Rattle.js_traps.specs.Resumed.{trap_resumed};

use crate::denying_traps::{
    proxy_delete, proxy_denied, proxy_denied_extensible, proxy_has_property,
};
use crate::extensible_traps::{
    proxy_extensible_same, proxy_is_extensible, proxy_not_extensible, proxy_prevent_extensions,
};
use crate::keys_trap::{
    proxy_key_there, proxy_key_told, proxy_keys_extensible, proxy_keys_length, proxy_keys_there,
    proxy_own_property_keys,
};
use crate::next::Next;
use crate::property_traps::{
    proxy_define_own_property, proxy_defined_extensible, proxy_defined_found,
    proxy_description_read, proxy_get_own_property, proxy_property_extensible,
    proxy_property_found,
};
use crate::prototype_traps::{
    proxy_get_prototype_of, proxy_prototype_extensible, proxy_prototype_fixed,
    proxy_set_prototype_of,
};
use crate::value_traps::{
    proxy_construct, proxy_get, proxy_set, proxy_set_found, proxy_value_found,
};
use js_desc::decision::Decision;
use js_desc::fault::FaultText;
use js_desc::reply::Reply;
use js_store::foreign::Foreign;
use js_store::frozen::FrozenStore;
use js_store::store::Store;
use lava_base::memory::OutOfMemory;
use std::alloc::Global;

/// How a decision goes on with the answer to its ask, once the trap is called. A throw goes on as it is. An answer of another kind than the ask has does not come; it would be the fault `wrong kind`.
pub fn resume_trap<S: Store>(
    alloc: Global,
    store: &S,
    common: &FrozenStore,
    foreign: &Foreign,
    next: Next,
    reply: Reply,
) -> Result<Decision<Next>, OutOfMemory>
    ensures { let names = naming_of (S.owner store.now).0 in
        let seen = marks_seen names (S.objects store.now) common.now foreign.now in
        IfOk result (λ d. d ≡ trap_resumed names seen next reply) }
{
    match next {
        Next::Answer => Ok(Decision::Done(reply)),
        Next::Trap { .. } => Ok(Decision::Fault(FaultText::WrongKind)),
        Next::PrototypeTold { target } => Ok(proxy_get_prototype_of(target, reply)),
        Next::PrototypeSet { target, proto } => Ok(proxy_set_prototype_of(target, proto, reply)),
        Next::PrototypeExtensible { target, proto, set } => {
            Ok(proxy_prototype_extensible(target, set, proto, reply))
        }
        Next::PrototypeFixed { proto, set } => Ok(proxy_prototype_fixed(set, proto, reply)),
        Next::ExtensibleTold { target } => Ok(proxy_is_extensible(target, reply)),
        Next::ExtensibleSame { told } => Ok(proxy_extensible_same(told, reply)),
        Next::Prevented { target } => Ok(proxy_prevent_extensions(target, reply)),
        Next::NotExtensible => Ok(proxy_not_extensible(reply)),
        Next::PropertyTold { target, key } => Ok(proxy_get_own_property(target, key, reply)),
        Next::PropertyFound {
            target,
            description,
        } => Ok(proxy_property_found(target, description, reply)),
        Next::PropertyExtensible { description, there } => {
            proxy_property_extensible(alloc, description, there, reply)
        }
        Next::DescriptionRead {
            description,
            there,
            extensible,
        } => proxy_description_read(
            alloc,
            store,
            common,
            foreign,
            description,
            there,
            extensible,
            reply,
        ),
        Next::PropertyDefined {
            target,
            key,
            fields,
        } => Ok(proxy_define_own_property(target, key, fields, reply)),
        Next::DefinedFound { target, fields } => Ok(proxy_defined_found(target, fields, reply)),
        Next::DefinedExtensible { fields, there } => {
            Ok(proxy_defined_extensible(fields, there, reply))
        }
        Next::PropertyKnown { target, key } => Ok(proxy_has_property(target, key, reply)),
        Next::PropertyDeleted { target, key } => Ok(proxy_delete(target, key, reply)),
        Next::Denied { target, absence } => Ok(proxy_denied(target, absence, reply)),
        Next::DeniedExtensible { absence } => Ok(proxy_denied_extensible(absence, reply)),
        Next::ValueTold { target, key } => Ok(proxy_get(target, key, reply)),
        Next::ValueFound { value } => Ok(proxy_value_found(value, reply)),
        Next::ValueSet { target, key, value } => Ok(proxy_set(target, key, value, reply)),
        Next::SetFound { value } => Ok(proxy_set_found(value, reply)),
        Next::KeysTold { target } => proxy_own_property_keys(alloc, target, reply),
        Next::KeysLength { target, list } => proxy_keys_length(alloc, target, list, reply),
        Next::KeyTold { listing } => proxy_key_told(alloc, listing, reply),
        Next::KeysExtensible { target, told } => Ok(proxy_keys_extensible(target, told, reply)),
        Next::KeysThere {
            target,
            told,
            extensible,
        } => proxy_keys_there(alloc, target, told, extensible, reply),
        Next::KeyThere { listed } => proxy_key_there(alloc, listed, reply),
        Next::Constructed => Ok(proxy_construct(reply)),
    }
}
