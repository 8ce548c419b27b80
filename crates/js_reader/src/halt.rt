// Where and why a reading stops.

ghost use Rattle.std.specs.Prelude.{◌≡◌};
ghost use Rattle.js_reader.specs.Halts.{form_name, IsFaultOf};

use js_fault::fault::{SyntaxFault, SyntaxWhat};
use js_grammar::left_out::LeftOut;
use lava_base::memory::OutOfMemory;
use lava_base::name::Name;
use lava_base::place::Place;
use std::alloc::Global;

/// Why a reading stops at a token.
#[derive(Clone, Copy, Drop)]
pub enum HaltCause {
    /// The tokens up to it have no partial tree.
    Unexpected,
    /// Each partial tree that they have has a form that the language leaves out.
    LeftOut(LeftOut),
    /// None that they have has as few levels as a tree may have.
    TooDeep,
}

/// Why a reading stops, and at which place.
#[derive(Clone, Copy, Drop)]
pub struct Halt {
    pub place: Place,
    pub cause: HaltCause,
}

/// The name by which a form that is left out is told.
fn form_name(form: LeftOut) -> &'static str
    ensures { result.now ≡ form_name form }
{
    match form {
        LeftOut::Export => "export",
        LeftOut::Field => "field",
        LeftOut::Generator => "generator",
        LeftOut::Import => "import",
        LeftOut::Proto => "proto",
        LeftOut::Regexp => "regexp",
        LeftOut::Static => "static",
        LeftOut::Super => "super",
        LeftOut::Tag => "tag",
        LeftOut::With => "with",
    }
}

/// The fault that a stop is.
pub fn fault_of(alloc: Global, halt: Halt) -> SyntaxFault
    ensures { IsFaultOf halt.place halt.cause result }
{
    let what = match halt.cause {
        HaltCause::Unexpected => SyntaxWhat::Unexpected,
        HaltCause::TooDeep => SyntaxWhat::TooDeep,
        HaltCause::LeftOut(form) => match Name::of(alloc, form_name(form)) {
            Ok(name) => SyntaxWhat::Unsupported(name),
            Err(OutOfMemory) => return SyntaxFault::OutOfMemory,
        },
    };
    SyntaxFault::At {
        place: halt.place,
        what,
    }
}
