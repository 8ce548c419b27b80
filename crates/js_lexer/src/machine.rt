// Reading a token a character at a time.

ghost use Rattle.std.specs.Prelude.{◌≡◌};
ghost use Rattle.js_lexer.specs.Machines.{run, Gives};

use crate::cursor::Cursor;

/// Why no token stands where one was looked for.
#[derive(Clone, Copy, Debug, PartialEq, Eq)]
pub enum Stop {
    /// The text ends inside a token.
    Cut,
    /// No token goes on so.
    Bad,
}

/// What a character does to a token of which a first part was read.
#[derive(Clone, Copy, Debug, PartialEq, Eq)]
pub enum Step<S, K> {
    /// The token goes on.
    Go(S),
    /// The token ends with the character.
    With(K),
    /// The token ends before the character.
    Before(K),
    /// No token goes on so.
    Bad,
}

/// A machine that reads a token: its values are its states, of which each says what was read so far.
pub trait Machine: Copy + Drop {
    ghost use Rattle.std.specs.Prelude.{◌≡◌, ℕ, Result};
    ghost use Rattle.js_lexer.specs.declared.machine.Step.{Step as Stepped};
    ghost use Rattle.js_lexer.specs.declared.machine.Stop.{Stop as Stopped};

    /// What is known of a token that was read.
    type Outcome: Drop;

    // What a character does.
    ghost steps: { Self → ℕ → Stepped Self Self.Outcome };

    // What the end of the text does.
    ghost stops: { Self → Result Self.Outcome Stopped };

    /// What a character does.
    fn step(self, c: char) -> Step<Self, Self::Outcome>
        ensures { result ≡ steps self c };

    /// What the end of the text does.
    fn stop(self) -> Result<Self::Outcome, Stop>
        ensures { result ≡ stops self };
}

/// Reads a token from a state on. After a refusal it is left open how much was taken.
pub fn read<M: Machine>(cursor: &mut Cursor, start: M) -> Result<M::Outcome, Stop>
    ensures { Gives (run M.steps M.stops start cursor.old) result cursor.new }
{
    let mut state = start;
    while let Some(c) = cursor.peek() {
        match state.step(c) {
            Step::Go(next) => {
                cursor.bump();
                state = next;
            }
            Step::With(outcome) => {
                cursor.bump();
                return Ok(outcome);
            }
            Step::Before(outcome) => return Ok(outcome),
            Step::Bad => return Err(Stop::Bad),
        }
    }
    state.stop()
}
