// How a run ends.

use lava_base::ids::PartyId;

/// How a run ends. A party is named where it is the one that met the end.
#[derive(Clone, Copy, Debug, PartialEq, Eq)]
pub enum Ending {
    /// The application's module ran to its end.
    Done,
    /// The application's module ended with a throw.
    Uncaught,
    /// A numeric result was no safe integer.
    Number(PartyId),
    /// A text would have passed the limit.
    Text(PartyId),
    /// More than the allowed number of asks and bodies were open in one party.
    Depth(PartyId),
    /// One party more would have been made than there may be.
    Parties(PartyId),
    /// The budget of steps was reached.
    Budget(PartyId),
    /// The outside had no answer, as a clock without a moment left.
    Outside,
}
