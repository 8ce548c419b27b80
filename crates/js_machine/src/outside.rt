// Calls of the host, and what the outside answers.

ghost use Rattle.std.specs.Prelude.{◌≡◌};

use js_text::text::Text;
use js_text::value::Value;
use lava_base::list::List;
use std::marker::Model;

/// A call of a function of the host: its number, and its arguments as they are printed.
#[derive(Drop)]
pub struct HostCall {
    pub function: u32,
    pub arguments: List<Text>,
}

impl Model for HostCall {
    ghost use Rattle.js_operation.specs.js_run.Outside.{OutsideCall};

    ghost Value = { OutsideCall };

    ghost view = { λ c. record { function = c.function; arguments = c.arguments } };
}

/// What the outside answers: a value, an error with a text, or nothing at all.
#[derive(Drop)]
pub enum HostAnswer {
    Text(Text),
    Number(u64),
    Truth(bool),
    Null,
    Undefined,
    Fails(Text),
    Gone,
}

impl HostCall {
    /// The number of the function.
    pub fn function(&self) -> u32
        ensures { result ≡ self.now.function }
    {
        self.function
    }

    /// The arguments, as they are printed.
    pub fn arguments(&self) -> &[Text]
        ensures { result.now ≡ self.now.arguments }
    {
        self.arguments.as_slice()
    }
}
