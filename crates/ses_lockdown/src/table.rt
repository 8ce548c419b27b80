// What the tables of the common part are made of.

/// Which objects a permit is for.
#[derive(Clone, Copy)]
pub enum Holder {
    /// Each function of the common part.
    EachFunction,
    /// The common object of a place.
    At(u32),
}

/// What sort of key a permit has.
#[derive(Clone, Copy)]
pub enum KeySort {
    /// A name in ASCII, which is no array index.
    Named,
    /// `Symbol.iterator`
    Iterator,
}

/// What stands at a permitted key.
#[derive(Clone, Copy)]
pub enum Stands {
    /// The function's name.
    OwnName,
    /// How many parameters the function has, before it has its body: a setter of lockdown has one, and any other none.
    OwnLength,
    /// The common object of a place.
    Object(u32),
    /// The common object of a place, which lockdown puts there (SES, tameFunctionConstructors).
    Tamed(u32),
    /// The name of the function of a place.
    NameOf(u32),
    /// The empty text.
    Empty,
    /// A safe integer.
    Integer(i64),
    /// `Symbol.iterator`
    IteratorSymbol,
    /// What the common object of a place gives: an accessor without a setter.
    Read(u32),
}

/// What lockdown makes of a property that holds a value.
#[derive(Clone, Copy)]
pub enum Override {
    /// It stays one.
    Stays,
    /// An accessor with the getter and the setter of these places (SES, enablePropertyOverrides).
    Accessor(u32, u32),
}

/// A property that a common object may have: of which one, what sort of key, the key's name, what stands there, and what lockdown makes of it.
pub type Permit = (Holder, KeySort, &'static str, Stands, Override);

/// What sort of object a common object is.
#[derive(Clone, Copy)]
pub enum Kind {
    Ordinary,
    Function,
    Constructor,
}

/// Where the body of a common object comes from.
#[derive(Clone, Copy)]
pub enum Role {
    /// The text of the prelude, if it is a function.
    Given,
    /// Lockdown: it is the getter of the property of a permit, by the permit's place in the table.
    Getter(usize),
    /// Lockdown: it is the setter of such a property.
    Setter(usize),
}

/// A common object: its kind, the place of its prototype, and where its body comes from.
pub type Place = (Kind, Option<u32>, Role);

/// How many common objects there are.
pub const COUNT: u32 = 222;

/// How many permits there are.
pub const PERMIT_COUNT: usize = 161;
