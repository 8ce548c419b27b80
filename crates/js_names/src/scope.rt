// A scope: the names that it declares, with an index beside the list.

ghost use Rattle.std.specs.Prelude.{◌≡◌, ◌++◌, ◌∷◌, [], length, OnOk, OnErr, IfOk, Some};
ghost use Rattle.std.specs.HashMap.{IsUnchanged, Updates};
ghost use Rattle.js_text.specs.Texts.{same_units};
ghost use Rattle.js_names.specs.Scopes as spec;

use crate::declared::{DeclaredName, FoundName};
use js_text::text::Text;
use lava_base::memory::OutOfMemory;
use sqlite_items::Items;
use std::alloc::Global;
use std::collections::HashMap;
use std::marker::Model;

/// The names that a scope declares, each once, in the order of their first declarations. `find` and `add` take constant time, amortised.
#[derive(Drop)]
pub struct NameScope {
    names: Items<DeclaredName>,
    /// Where each name is declared.
    index: HashMap<Text, FoundName>,
}

impl Model for NameScope {
    ghost use Rattle.std.specs.Prelude.{List};
    ghost use Rattle.std.specs.HashMap.{get};
    ghost use Rattle.js_text.specs.Texts.{same_units};
    ghost use Rattle.js_names.specs.Scopes.{IsIndexed};
    ghost use Rattle.js_names.specs.declared.declared.DeclaredName.{DeclaredName};

    ghost Value = { List DeclaredName };

    ghost view = { λ s. s.names };

    ghost invariant = { λ s. IsIndexed (λ n. get same_units s.index n) s.names };
}

fn noted(at: usize, name: &DeclaredName) -> FoundName
    ensures { result ≡ spec.found_at at name.now }
{
    FoundName {
        at,
        place: name.place,
        constant: name.constant,
    }
}

/// Appends a name, and notes it in the index. After a refusal both are as before.
fn append(
    names: &mut Items<DeclaredName>,
    index: &mut HashMap<Text, FoundName>,
    name: &DeclaredName,
) -> Result<(), OutOfMemory>
    ensures ok { OnOk result (names.new ≡ names.old ++ name.now ∷ []) }
    ensures noted { let found = spec.found_at (length names.old) name.now in
        OnOk result (Updates same_units index.old index.new name.now.name (Some found)) }
    ensures err { OnErr result (names.new ≡ names.old) }
    ensures unnoted { OnErr result (IsUnchanged index.old index.new) }
{
    let found = noted(names.len(), name);
    let key = name.name.copy()?;
    names.push(name.copy()?)?;
    match index.insert(key, found) {
        Ok(_) => Ok(()),
        Err(_) => {
            names.pop();
            Err(OutOfMemory)
        }
    }
}

impl NameScope {
    /// A scope without names. It takes no memory.
    pub fn new(alloc: Global) -> NameScope
        ensures { result ≡ [] }
    {
        NameScope {
            names: Items::new(alloc),
            index: HashMap::new(alloc),
        }
    }

    /// The first declaration of a name, if the scope declares it (ECMA-262, HasBinding).
    pub fn find(&self, name: &Text) -> Option<FoundName>
        ensures { result ≡ spec.found_in name.now self.now }
    {
        self.index.get(name).copied()
    }

    /// Whether the scope declares a name.
    pub fn has(&self, name: &Text) -> bool
        ensures { result ≡ spec.has_name name.now self.now }
    {
        self.find(name).is_some()
    }

    /// Adds a name, unless the scope declares it already.
    pub fn add(&mut self, name: &DeclaredName) -> Result<(), OutOfMemory>
        ensures { OnOk result (self.new ≡ spec.with_name self.old name.now) }
    {
        if self.has(&name.name) {
            return Ok(());
        }
        append(&mut self.names, &mut self.index, name)?;
        Ok(())
    }

    /// Adds names, each unless the scope declares it already.
    pub fn add_all(&mut self, mut list: &[DeclaredName]) -> Result<(), OutOfMemory>
        ensures { OnOk result (self.new ≡ spec.with_names self.old list.entry.now) }
    {
        while let [first, rest @ ..] = list {
            self.add(first)?;
            list = rest;
        }
        Ok(())
    }
}

/// The scope of these names.
pub fn scope_of(alloc: Global, list: &[DeclaredName]) -> Result<NameScope, OutOfMemory>
    ensures { IfOk result (λ scope. scope ≡ spec.with_names [] list.now) }
{
    let mut scope = NameScope::new(alloc);
    scope.add_all(list)?;
    Ok(scope)
}
