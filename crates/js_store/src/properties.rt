// The own properties of an object, in the normal order.

ghost use Rattle.std.specs.Prelude.{◌≡◌, [], is_some, OnOk, OnErr, IfOk};
ghost use Rattle.std.specs.Option.{option_map};
ghost use Rattle.lava_base.specs.Ids.{same_made_symbol};
ghost use Rattle.js_store.specs.Objects.{ordinary_get_own_property, ordinary_own_property_keys, last_index, replaced, written, without};
ghost use Rattle.js_store.specs.Order.{IsInOrder};

use crate::elements::Elements;
use crate::named::NamedProperties;
use js_desc::descriptor::Descriptor;
use js_text::value::Key;
use lava_base::list::List;
use lava_base::memory::OutOfMemory;
use std::alloc::Global;
use std::marker::Model;

/// Own properties. A property is found by its key in constant time, but for an index among scattered ones; no call sorts.
#[derive(Drop)]
pub(crate) struct Properties {
    /// Those at array indices.
    elements: Elements,
    /// The others, in order of creation.
    named: NamedProperties,
}

impl Model for Properties {
    ghost use Rattle.std.specs.Prelude.{List};
    ghost use Rattle.lava_base.specs.declared.ids.MadeSymbol.{MadeSymbol};
    ghost use Rattle.lava_base.specs.declared.ids.Ref.{Ref};
    ghost use Rattle.js_text.specs.declared.value.Key.{Key as Name};
    ghost use Rattle.js_desc.specs.declared.descriptor.Descriptor.{Descriptor as Property};
    ghost use Rattle.js_store.specs.Halves.{joined, IsNamed};

    ghost Value = { List (Name MadeSymbol × Property Ref MadeSymbol) };

    ghost view = { λ p. joined p.elements p.named };

    ghost invariant = { λ p. IsNamed p.named };
}

impl Properties {
    /// None at all. It takes no memory.
    pub(crate) fn new(alloc: Global) -> Properties
        ensures { result ≡ [] }
    {
        Properties {
            elements: Elements::new(alloc),
            named: NamedProperties::new(alloc),
        }
    }

    /// The property of a key.
    #[tactic(auto, using(crate::proofs::Halves_laws::own_index, crate::proofs::Halves_laws::own_named))]
    #[inline]
    pub(crate) fn own(&self, key: &Key) -> Option<&Descriptor>
        ensures { let found = option_map (λ d. d.now) result in
            found ≡ ordinary_get_own_property same_made_symbol key.now self.now }
    {
        match key {
            Key::Index(index) => self.elements.get(*index),
            _ => self.named.own(key),
        }
    }

    /// Writes the property of a key.
    #[tactic(auto, using(crate::proofs::Halves_laws::written_index, crate::proofs::Halves_laws::written_named, crate::proofs::Halves_laws::named_written))]
    pub(crate) fn write(&mut self, key: Key, property: Descriptor) -> Result<(), OutOfMemory>
        ensures ok { OnOk result (self.new ≡ written same_made_symbol key property self.old) }
        ensures err { OnErr result (self.new ≡ self.old) }
    {
        if let Key::Index(index) = key {
            return self.elements.write(index, property);
        }
        self.named.write(key, property)
    }

    /// Takes the property of a key out, if there is one.
    #[tactic(auto, using(crate::proofs::Halves_laws::without_index, crate::proofs::Halves_laws::without_named, crate::proofs::Halves_laws::named_without))]
    pub(crate) fn remove(&mut self, key: &Key)
        ensures { self.new ≡ without same_made_symbol key.now self.old }
    {
        match key {
            Key::Index(index) => self.elements.remove(*index),
            _ => self.named.remove(key),
        }
    }

    /// Puts another property in the place of that of a key, and tells whether there is one. It takes no memory.
    #[tactic(auto, using(crate::proofs::Halves_laws::own_index, crate::proofs::Halves_laws::own_named, crate::proofs::Halves_laws::replaced_index, crate::proofs::Halves_laws::replaced_named, crate::proofs::Halves_laws::named_replaced))]
    pub(crate) fn replace(&mut self, key: Key, property: Descriptor) -> bool
        ensures found { let there = ordinary_get_own_property same_made_symbol key self.old in
            result ≡ is_some there }
        ensures properties { self.new ≡ replaced same_made_symbol key property self.old }
    {
        if let Key::Index(index) = key {
            return self.elements.replace(index, property);
        }
        self.named.replace(key, property)
    }

    /// The last array index that has a property, if there is one.
    #[tactic(auto, using(crate::proofs::Halves_laws::last_joined))]
    pub(crate) fn last_index(&self) -> Option<u32>
        ensures last { result ≡ last_index self.now }
        ensures order { IsInOrder same_made_symbol self.now }
    {
        self.stand_in_order();
        self.elements.last()
    }

    /// The keys: array indices ascending, then other texts, then symbols.
    #[tactic(auto, using(crate::proofs::Halves_laws::keys_joined))]
    pub(crate) fn keys(&self, alloc: Global) -> Result<List<Key>, OutOfMemory>
        ensures keys { IfOk result (λ keys. keys ≡ ordinary_own_property_keys self.now) }
        ensures order { IsInOrder same_made_symbol self.now }
    {
        self.stand_in_order();
        let mut keys = List::new(alloc);
        self.elements.push_keys(&mut keys)?;
        self.named.push_keys(false, &mut keys)?;
        self.named.push_keys(true, &mut keys)?;
        Ok(keys)
    }

    /// They stand in the normal order.
    #[tactic(auto, using(crate::proofs::Halves_laws::joined_in_order))]
    fn stand_in_order(&self)
        ensures { IsInOrder same_made_symbol self.now }
    {
        self.elements.ascend();
        self.named.differ();
    }
}
