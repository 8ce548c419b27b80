// How runs stop.

ghost use Rattle.std.specs.Prelude.{◌≡◌};
ghost use Rattle.js_machine.specs.Stops.{told_stop, with_steps};

use crate::frame::{Halt, Mode};
use lava_base::ids::Ref;

/// What a run has left where it pauses for an answer of the outside: so many charges, and the steps
/// up to the limit. A run that is free of charge tells other steps than it takes.
#[derive(Clone, Copy)]
pub struct Pause {
    pub charges: u64,
    pub limit: u64,
    pub steps: u64,
    pub told: Option<u64>,
}

/// How a run of a body stops, with the party's steps.
#[derive(Clone, Copy)]
pub enum Stop {
    /// The machine's ask is sent to a foreign object.
    Sent { target: Ref, steps: u64 },
    /// The body is over, with a completion.
    Gave { mode: Mode, steps: u64 },
    /// The run ends.
    Stopped { halt: Halt, steps: u64 },
    /// The limit lacks what is to be paid for what is next.
    Short { steps: u64 },
    /// The machine's import is sent over a link.
    Imports { steps: u64 },
    /// The outside is asked, by the newest call.
    Outside(Pause),
}

/// What becomes of a charge.
#[derive(Clone, Copy)]
pub enum Charge {
    Charged,
    /// It would pass the limit.
    Lacks,
    /// It would pass the party's meter, so the run ends.
    Stops,
}

impl Stop {
    /// The same stop, with other steps.
    pub fn with_steps(self, steps: u64) -> Stop
        ensures { result ≡ with_steps steps self }
    {
        match self {
            Stop::Sent { target, .. } => Stop::Sent { target, steps },
            Stop::Gave { mode, .. } => Stop::Gave { mode, steps },
            Stop::Stopped { halt, .. } => Stop::Stopped { halt, steps },
            Stop::Short { .. } => Stop::Short { steps },
            Stop::Imports { .. } => Stop::Imports { steps },
            Stop::Outside(pause) => Stop::Outside(Pause {
                told: Some(steps),
                ..pause
            }),
        }
    }

    /// The same stop, with the steps that are told.
    pub fn told(self, steps: Option<u64>) -> Stop
        ensures { result ≡ told_stop steps self }
    {
        match steps {
            None => self,
            Some(steps) => self.with_steps(steps),
        }
    }
}
