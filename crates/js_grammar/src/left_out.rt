// Forms of ECMA-262 that the language leaves out.

/// A form of ECMA-262 that the language leaves out, by what shows it.
#[derive(Clone, Copy, Drop, PartialEq, Eq)]
pub enum LeftOut {
    /// `export`, where a statement of a module may begin.
    Export,
    /// A field of a class.
    Field,
    /// `*` of a generator.
    Generator,
    /// `import`, where an operand or a statement may begin.
    Import,
    /// `__proto__: v` in a literal that is no pattern.
    Proto,
    /// `/` or `/=`, where an operand must stand.
    Regexp,
    /// `{` behind `static`.
    Static,
    /// An assignment to a property of `super`.
    Super,
    /// A template behind a member or a call.
    Tag,
    /// `with`, where a statement may begin.
    With,
}
