// The text of a trace, line by line as crossings happen.

ghost use Rattle.std.specs.Prelude.{◌≡◌, ◌++◌, ◌<◌, ◌≤◌, ◌^◌, length, sum, true, IfOk, IfSome, OnOk};
ghost use Rattle.lava_journal.specs.Lines.{HasSteps, end_text};
ghost use Rattle.lava_driver.specs.Traces.{CanBeRead, HasNoted, HasWritten, trace_start, with_crossing};

use js_desc::ending::Ending as ToldEnding;
use js_world::js_crossing::ending::{Ending, Turn};
use js_world::js_crossing::newest::TracedCrossing;
use js_world::world::FlatWorld;
use lava_base::list::List;
use lava_base::memory::OutOfMemory;
use lava_base::name::Name;
use lava_journal::frame::{write_end, write_start};
use lava_journal::names::Names;
use lava_ranges::crossing::{have_paths, is_in_range};
use lava_ranges::kinds::is_wanted;
use lava_trace::answers::{AnswerKind, open_or_close, opens};
use std::alloc::Global;
use std::marker::Model;

/// How many bytes a trace may have: twice as many as a party may have names behind those of the start, since each name takes two bytes at least.
pub const MAX_TEXT: usize = 8_589_934_568;

/// A trace that is being written.
#[derive(Drop)]
pub struct Tracer {
    names: Names,
    /// The number of the newest crossing that has its line.
    count: u64,
    /// The kinds of the answers to the open asks, the latest last.
    asks: List<AnswerKind>,
    text: List<u8>,
}

impl Model for Tracer {
    ghost use Rattle.lava_driver.specs.Traces.{TraceText};

    ghost Value = { TraceText };

    ghost view = { λ t. record { text = t.text; names = t.names; count = t.count; asks = t.asks } };
}

/// The sum of steps, where it can be counted.
fn sum_of(steps: &[u64]) -> Option<u64>
    ensures { IfSome result (λ n. sum steps.now ≡ n) }
{
    let mut total: u64 = 0;
    for count in steps {
        match total.checked_add(*count) {
            Some(next) => total = next,
            None => return None,
        }
    }
    Some(total)
}

/// Whether the party of an ending, if it has one, is among those that have steps.
fn has_steps(steps: &[u64], ending: ToldEnding) -> bool
    ensures { result ≡ true → HasSteps steps.now ending }
{
    match ending {
        ToldEnding::Number(party)
        | ToldEnding::Text(party)
        | ToldEnding::Depth(party)
        | ToldEnding::Parties(party)
        | ToldEnding::Budget(party) => (party.0 as usize) < steps.len(),
        ToldEnding::Done | ToldEnding::Uncaught | ToldEnding::Outside => true,
    }
}

/// The same steps as a list.
fn list_of(alloc: Global, steps: &[u64]) -> Result<List<u64>, OutOfMemory>
    ensures { IfOk result (λ l. l ≡ steps.now) }
{
    let mut list = List::new(alloc);
    list.extend_from_slice(steps)?;
    Ok(list)
}

/// Appends the lines of the steps and the last line. Want of memory is answered too where the party of the ending has no steps, and where their sum is too large to be counted.
fn push_end(
    alloc: Global,
    steps: &[u64],
    ending: ToldEnding,
    text: &mut List<u8>,
) -> Result<(), OutOfMemory>
    ensures written { OnOk result (text.new ≡ text.old ++ end_text steps.now ending) }
    ensures total { OnOk result (sum steps.now < 2 ^ 64) }
    ensures party { OnOk result (HasSteps steps.now ending) }
{
    let listed = list_of(alloc, steps)?;
    if !has_steps(steps, ending) {
        return Err(OutOfMemory);
    }
    match sum_of(steps) {
        Some(_) => write_end(alloc, &listed, &ending, text),
        None => Err(OutOfMemory),
    }
}

/// Whether the line of a crossing keeps to what can be read back, where these asks are open before it.
fn can_be_read(asks: &List<AnswerKind>, newest: &TracedCrossing) -> bool
    ensures { result ≡ true → CanBeRead asks.now newest.now }
{
    is_in_range(&newest.crossing)
        && have_paths(&newest.marks)
        && is_wanted(asks, &newest.crossing.body)
}

impl Tracer {
    /// A trace of these parties, of which nothing but the first lines is written.
    pub fn new(alloc: Global, parties: &List<Name>) -> Result<Tracer, OutOfMemory>
        ensures { IfOk result (λ t. t ≡ trace_start parties.now) }
    {
        let mut text = List::new(alloc);
        write_start(alloc, parties, &mut text)?;
        Ok(Tracer {
            names: Names::new(alloc),
            count: 0,
            asks: List::new(alloc),
            text,
        })
    }

    /// What is written.
    pub fn text(&self) -> &[u8]
        ensures { result.now ≡ self.now.text }
    {
        self.text.as_slice()
    }

    /// How many crossings have their lines.
    pub fn count(&self) -> u64
        ensures count { result ≡ self.now.count }
        ensures counted { self.now.count < 2 ^ 64 }
    {
        self.count
    }

    /// The line of a crossing is written, where it keeps to what can be read back.
    fn write_line(&mut self, newest: &TracedCrossing) -> Result<(), OutOfMemory>
        ensures { let written = self.new ≡ with_crossing self.old newest.now in
            OnOk result (written × CanBeRead self.old.asks newest.now) }
    {
        if !can_be_read(&self.asks, newest) {
            return Err(OutOfMemory);
        }
        match self.count.checked_add(1) {
            Some(number) => {
                self.names
                    .write_crossing(number, &newest.crossing, &newest.marks, &mut self.text)?;
                open_or_close(&mut self.asks, opens(&newest.crossing.body))?;
                self.count = number;
                Ok(())
            }
            None => Err(OutOfMemory),
        }
    }

    /// The line of the newest crossing is written, of a world that traces.
    fn write_newest(&mut self, world: &FlatWorld) -> Result<(), OutOfMemory>
        requires { world.now.tracing ≡ true }
        ensures { OnOk result (HasWritten world.now self.old self.new) }
    {
        match world.newest() {
            Some(newest) => self.write_line(newest),
            None => Err(OutOfMemory),
        }
    }

    /// The line of the newest crossing is written. Want of memory is answered too where crossings are not traced, where the line could not be read back (`can_be_read`), and after 18,446,744,073,709,551,615 of them.
    pub fn write(&mut self, world: &FlatWorld) -> Result<(), OutOfMemory>
        ensures { OnOk result (HasWritten world.now self.old self.new) }
    {
        if world.is_tracing() {
            return self.write_newest(world);
        }
        Err(OutOfMemory)
    }

    /// The line of the crossing by which a turn came is written, if there is one.
    pub fn note(&mut self, world: &FlatWorld, turn: Turn) -> Result<(), OutOfMemory>
        ensures { OnOk result (HasNoted world.now turn self.old self.new) }
    {
        match turn {
            Turn::Runs(_) | Turn::Over(Ending::Done) | Turn::Over(Ending::Uncaught) => {
                self.write(world)
            }
            Turn::Over(Ending::Budget(_)) | Turn::Over(Ending::Fault(_, _)) | Turn::Asks(_) => {
                Ok(())
            }
        }
    }

    /// The lines of the steps and the last line are written. Want of memory is answered too where `push_end` says so, and where the text has more than `MAX_TEXT` bytes then.
    pub fn end(
        &mut self,
        alloc: Global,
        steps: &[u64],
        ending: ToldEnding,
    ) -> Result<(), OutOfMemory>
        ensures written { let end = end_text steps.now ending in
            OnOk result (self.new ≡ record self.old { text = self.old.text ++ end }) }
        ensures total { OnOk result (sum steps.now < 2 ^ 64) }
        ensures party { OnOk result (HasSteps steps.now ending) }
        ensures short { OnOk result (length self.new.text ≤ MAX_TEXT) }
    {
        push_end(alloc, steps, ending, &mut self.text)?;
        if self.text.len() > MAX_TEXT {
            return Err(OutOfMemory);
        }
        Ok(())
    }
}
