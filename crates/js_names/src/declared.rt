// Declared names.

ghost use Rattle.std.specs.Prelude.{◌≡◌, ◌++◌, OnOk, IfOk};
ghost use Rattle.js_names.specs.Names as spec;
ghost use Rattle.js_names.specs.Lists.{from_option};

use js_text::text::Text;
use js_tree::tree::Identifier;
use lava_base::memory::OutOfMemory;
use lava_base::place::Place;
use sqlite_items::Items;

/// A name that is declared, and where.
#[derive(Drop)]
pub struct DeclaredName {
    pub name: Text,
    pub place: Place,
    /// Whether it is declared by `const`, or is the name that a function or class expression has inside it.
    pub constant: bool,
}

/// A declared name of a scope: how many names of the scope stand before it, and where it is declared first.
#[derive(Clone, Copy, Debug, PartialEq, Eq)]
pub struct FoundName {
    pub at: usize,
    pub place: Place,
    pub constant: bool,
}

impl DeclaredName {
    /// The same declared name once more.
    pub fn copy(&self) -> Result<DeclaredName, OutOfMemory>
        ensures { IfOk result (λ copy. copy ≡ self.now) }
    {
        Ok(DeclaredName {
            name: self.name.copy()?,
            place: self.place,
            constant: self.constant,
        })
    }
}

/// Appends the name that an identifier declares.
pub fn declare(
    constant: bool,
    identifier: &Identifier,
    out: &mut Items<DeclaredName>,
) -> Result<(), OutOfMemory>
    ensures { OnOk result (out.new ≡ out.old ++ spec.declared constant identifier.now) }
{
    let name = identifier.name.copy()?;
    let place = identifier.place;
    out.push(DeclaredName {
        name,
        place,
        constant,
    })?;
    Ok(())
}

/// Appends the name of a function or class, if it has one.
pub fn maybe_declare(
    constant: bool,
    identifier: &Option<Identifier>,
    out: &mut Items<DeclaredName>,
) -> Result<(), OutOfMemory>
    ensures { OnOk result (out.new
        ≡ out.old ++ from_option (spec.declared constant) identifier.now) }
{
    match identifier {
        None => Ok(()),
        Some(found) => declare(constant, found, out),
    }
}
