// What a trace has said so far.

ghost use Rattle.std.specs.Prelude.{◌≡◌, ◌-◌, ◌<◌, ◌&&◌, [], get_or, length, nat_le, IfOk, OnOk};
ghost use Rattle.std.specs.Ordering.{is_lt};
ghost use Rattle.js_text.specs.Search.{order_of_units};
ghost use Rattle.js_text.specs.Texts.{same_units};
ghost use Rattle.lava_trace.specs.Courses as spec;
ghost use Rattle.lava_trace.specs.Courses.{Takes};

use crate::answers::{AnswerKind, open_or_close, opens, wanted};
use crate::left::{LineReader, MAX_PARTY};
use crate::line::{Trace, TraceLine};
use crate::names::is_word;
use crate::written::{end_count, end_text, party_text, steps_text};
use js_desc::ask::Ask;
use js_desc::crossing::{CrossBody, Crossing};
use js_desc::ending::Ending;
use lava_base::ids::{PartyId, Ref};
use lava_base::list::List;
use lava_base::marks::Marks;
use lava_base::memory::OutOfMemory;
use lava_base::name::Name;
use lava_journal::names::Names;
use std::alloc::Global;
use std::cmp::Ordering;
use std::marker::Model;

/// What a trace has said so far. It takes one line after the other, each with its LF.
#[derive(Drop)]
pub(crate) struct TraceReader {
    alloc: Global,
    begun: bool,
    names: List<Name>,
    parties: u32,
    lines: List<TraceLine>,
    named: Names,
    unanswered: List<AnswerKind>,
    steps: List<u64>,
    ending: Option<Ending>,
}

impl Model for TraceReader {
    ghost use Rattle.lava_trace.specs.Courses.{Course};

    ghost Value = { Course };

    ghost view = { λ r. record { begun = r.begun; names = r.names; parties = r.parties; lines = r.lines; named = r.named; unanswered = r.unanswered; steps = r.steps; ending = r.ending } };
}

/// What is found of the crossing that a line tells.
#[derive(Clone, Copy)]
struct Told {
    /// The line is written just so, and the crossing may stand there.
    may_stand: bool,
    /// The kind of the answer that it opens, if it is an ask.
    opens: Option<AnswerKind>,
    /// It is a Make.
    makes: bool,
}

/// A line without its LF.
fn front(line: &[u8]) -> &[u8]
    ensures { result.now ≡ spec.front line.now }
{
    if line.is_empty() {
        line
    } else {
        &line[..line.len() - 1]
    }
}

/// Whether what crosses is a Make.
fn is_make(body: &CrossBody) -> bool
    ensures { result ≡ spec.is_make body.now }
{
    match body {
        CrossBody::Ask {
            ask: Ask::Make { .. },
            ..
        } => true,
        _ => false,
    }
}

/// Whether a crossing is from a party to another one, or a Make to the next one.
#[tactic(auto, unfolding(crate::specs::Courses::may_cross))]
fn may_cross(parties: u32, crossing: &Crossing) -> bool
    ensures { result ≡ spec.may_cross parties crossing.now }
{
    let from = crossing.from.0;
    let to = crossing.to.0;
    if is_make(&crossing.body) {
        from < parties && to == parties && (parties as u64) <= MAX_PARTY
    } else {
        from < parties && to < parties && from != to
    }
}

/// The name in the line of a party, in UTF-8.
#[tactic(auto, unfolding(crate::specs::Courses::name_in))]
fn name_in(alloc: Global, line: &[u8]) -> Result<List<u8>, OutOfMemory>
    ensures { IfOk result (λ name. name ≡ spec.name_in line.now) }
{
    let mut reader = LineReader::new(alloc, front(line));
    reader.skip(6);
    reader.number();
    reader.skip(1);
    let text = reader.text()?;
    let mut name = List::new(alloc);
    text.write_utf8(&mut name)?;
    Ok(name)
}

/// The count in a line of steps.
#[tactic(auto, unfolding(crate::specs::Courses::count_in))]
fn count_in(alloc: Global, line: &[u8]) -> u64
    ensures { result ≡ spec.count_in line.now }
{
    let mut reader = LineReader::new(alloc, line);
    reader.skip(6);
    reader.number();
    reader.skip(1);
    reader.number()
}

/// An ending by its word.
fn ending_of(word: &[u8], party: PartyId) -> Ending
    ensures { result ≡ spec.ending_of word.now party }
{
    if is_word(word, "Done") {
        return Ending::Done;
    }
    if is_word(word, "Uncaught") {
        return Ending::Uncaught;
    }
    if is_word(word, "Number") {
        return Ending::Number(party);
    }
    if is_word(word, "Text") {
        return Ending::Text(party);
    }
    if is_word(word, "Depth") {
        return Ending::Depth(party);
    }
    if is_word(word, "Parties") {
        return Ending::Parties(party);
    }
    if is_word(word, "Budget") {
        return Ending::Budget(party);
    }
    Ending::Outside
}

/// The ending that the last line tells.
#[tactic(auto, unfolding(crate::specs::Courses::ending_in, crate::specs::Courses::ending_party))]
fn ending_in(alloc: Global, line: &[u8]) -> Ending
    ensures { result ≡ spec.ending_in line.now }
{
    let mut reader = LineReader::new(alloc, line);
    reader.skip(4);
    let word = reader.word();
    reader.skip(word.len() + 1);
    ending_of(word, reader.party())
}

/// Whether two lists of bytes are the same.
fn is_same(line: &[u8], written: &[u8]) -> bool
    ensures { result ≡ same_units line.now written.now }
{
    line == written
}

impl TraceReader {
    /// Before the first line. It takes no memory.
    pub(crate) fn new(alloc: Global) -> TraceReader
        ensures { result ≡ spec.nothing_said }
    {
        TraceReader {
            alloc,
            begun: false,
            names: List::new(alloc),
            parties: 0,
            lines: List::new(alloc),
            named: Names::new(alloc),
            unanswered: List::new(alloc),
            steps: List::new(alloc),
            ending: None,
        }
    }

    /// Takes the first line.
    #[tactic(auto, unfolding(crate::specs::Courses::with_first))]
    fn take_first(&mut self, line: &[u8]) -> bool
        ensures { Takes result (spec.with_first self.old line.now) self.new }
    {
        if !is_word(line, "lava-trace 1\n") {
            return false;
        }
        self.begun = true;
        true
    }

    /// Whether a name may stand behind the last one.
    #[tactic(auto, unfolding(crate::specs::Courses::may_follow))]
    fn may_follow(&self, name: &[u8]) -> bool
        ensures { result ≡ spec.may_follow self.now.names name.now }
    {
        let count = self.names.len();
        if count == 0 {
            return is_word(name, "$host$");
        }
        if count == 1 {
            return is_word(name, "$root$");
        }
        if count == 2 {
            return true;
        }
        rises(self.last_name().as_bytes(), name)
    }

    /// The last name.
    #[tactic(auto, using(crate::proofs::Left_laws::same_item))]
    fn last_name(&self) -> &str
        requires { 0 < length self.now.names }
        ensures { result.now ≡ get_or self.now.names (length self.now.names - 1) [] }
    {
        self.names.item(self.names.len() - 1).as_str()
    }

    /// Keeps the name of one more party.
    fn keep_name(&mut self, name: &[u8]) -> Result<(), OutOfMemory>
        ensures { OnOk result (self.new ≡ spec.with_name self.old name.now) }
    {
        let Some(parties) = self.parties.checked_add(1) else {
            return Err(OutOfMemory);
        };
        let Ok(text) = str::from_utf8(name) else {
            return Err(OutOfMemory);
        };
        self.names.push(Name::of(self.alloc, text)?)?;
        self.parties = parties;
        Ok(())
    }

    /// Whether one more party with this name may stand here, where its line is written just so.
    fn is_next(&self, same: bool, name: &[u8]) -> bool
        ensures { result ≡ (same && spec.may_follow self.now.names name.now
            && nat_le (length self.now.names) MAX_PARTY) }
    {
        same && self.may_follow(name) && self.names.len() as u64 <= MAX_PARTY
    }

    /// Takes the line of a party.
    #[tactic(auto, unfolding(crate::specs::Courses::with_party))]
    fn take_party(&mut self, line: &[u8]) -> Result<bool, OutOfMemory>
        ensures { IfOk result (λ good. Takes good (spec.with_party self.old line.now) self.new) }
    {
        let name = name_in(self.alloc, line)?;
        let number = self.names.len() as u64;
        let written = party_text(self.alloc, number, name.as_slice())?;
        let same = is_same(line, written.as_slice());
        if self.is_next(same, name.as_slice()) {
            self.keep_name(name.as_slice())?;
            return Ok(true);
        }
        Ok(false)
    }

    /// Counts the party that a Make makes.
    fn count_made(&mut self, makes: bool) -> Result<(), OutOfMemory>
        ensures { OnOk result (self.new ≡ spec.with_made self.old makes) }
    {
        if makes {
            let Some(parties) = self.parties.checked_add(1) else {
                return Err(OutOfMemory);
            };
            self.parties = parties;
        }
        Ok(())
    }

    /// Writes the line of the next crossing, whose references are named from then on, and says whether it is this one.
    fn is_written(
        &mut self,
        line: &[u8],
        crossing: &Crossing,
        named: &List<(Ref, Marks)>,
    ) -> Result<bool, OutOfMemory>
        ensures same { IfOk result (λ same. same
            ≡ spec.is_written self.old line.now crossing.now named.now) }
        ensures names { OnOk result (self.new
            ≡ spec.with_named self.old crossing.now named.now) }
    {
        let mut written = List::new(self.alloc);
        let number = self.lines.as_slice().len() as u64 + 1;
        self.named
            .write_crossing(number, crossing, named, &mut written)?;
        Ok(is_same(line, written.as_slice()))
    }

    /// Reads the crossing that a line tells, writes its line, and keeps it, whatever it is.
    #[tactic(auto, unfolding(crate::specs::Courses::read_in))]
    fn tell(&mut self, line: &[u8]) -> Result<Told, OutOfMemory>
        ensures may_stand { let got = spec.read_in (spec.wanted self.old.unanswered) line.now in
            IfOk result (λ t. t.may_stand ≡ spec.may_stand self.old line.now got.0 got.1.named) }
        ensures opens { let got = spec.read_in (spec.wanted self.old.unanswered) line.now in
            IfOk result (λ t. t.opens ≡ spec.opens got.0.body) }
        ensures makes { let got = spec.read_in (spec.wanted self.old.unanswered) line.now in
            IfOk result (λ t. t.makes ≡ spec.is_make got.0.body) }
        ensures kept { let got = spec.read_in (spec.wanted self.old.unanswered) line.now in
            OnOk result (self.new ≡ spec.with_told self.old got.0 got.1.marks got.1.named) }
    {
        let kind = wanted(&self.unanswered);
        let mut reader = LineReader::new(self.alloc, front(line));
        let crossing = reader.crossing(kind)?;
        let (marks, named) = reader.into_marks();
        let may_cross = may_cross(self.parties, &crossing);
        let opens = opens(&crossing.body);
        let makes = is_make(&crossing.body);
        let written = self.is_written(line, &crossing, &named);
        self.lines.push(TraceLine { crossing, marks })?;
        let may_stand = both(written?, may_cross);
        Ok(Told {
            may_stand,
            opens,
            makes,
        })
    }

    /// Takes the line of a crossing.
    #[tactic(auto, unfolding(crate::specs::Courses::with_crossing))]
    fn take_crossing(&mut self, line: &[u8]) -> Result<bool, OutOfMemory>
        ensures { IfOk result (λ good. Takes good (spec.with_crossing self.old line.now) self.new) }
    {
        let told = self.tell(line)?;
        if !told.may_stand {
            return Ok(false);
        }
        open_or_close(&mut self.unanswered, told.opens)?;
        self.count_made(told.makes)?;
        Ok(true)
    }

    /// Takes the line of a party's steps.
    #[tactic(auto, unfolding(crate::specs::Courses::with_steps))]
    fn take_steps(&mut self, line: &[u8]) -> Result<bool, OutOfMemory>
        ensures { IfOk result (λ good. Takes good (spec.with_steps self.old line.now) self.new) }
    {
        let count = count_in(self.alloc, line);
        let written = steps_text(self.alloc, self.steps.len() as u64, count)?;
        if is_same(line, written.as_slice()) {
            self.steps.push(count)?;
            return Ok(true);
        }
        Ok(false)
    }

    /// Takes the last line.
    #[tactic(auto, unfolding(crate::specs::Courses::with_ending))]
    fn take_ending(&mut self, line: &[u8]) -> Result<bool, OutOfMemory>
        ensures { IfOk result (λ good. Takes good (spec.with_ending self.old line.now) self.new) }
    {
        let ending = ending_in(self.alloc, line);
        let Some(count) = end_count(self.steps.as_slice(), ending) else {
            return Ok(false);
        };
        let written = end_text(self.alloc, ending, count)?;
        if is_same(line, written.as_slice()) {
            self.ending = Some(ending);
            return Ok(true);
        }
        Ok(false)
    }

    /// Whether a line of a party may stand here.
    fn takes_party(&self) -> bool
        ensures { result ≡ spec.takes_party self.now }
    {
        self.lines.is_empty() && self.steps.is_empty() && self.ending.is_none()
    }

    /// Whether a crossing may stand here.
    fn takes_crossing(&self) -> bool
        ensures { result ≡ spec.takes_crossing self.now }
    {
        2 <= self.names.len() && self.steps.is_empty() && self.ending.is_none()
    }

    /// Whether a line of steps may stand here.
    fn takes_steps(&self) -> bool
        ensures { result ≡ spec.takes_steps self.now }
    {
        2 <= self.names.len() && self.steps.len() < self.parties as usize && self.ending.is_none()
    }

    /// Whether the last line may stand here.
    fn takes_ending(&self) -> bool
        ensures { result ≡ spec.takes_ending self.now }
    {
        2 <= self.names.len() && self.steps.len() == self.parties as usize && self.ending.is_none()
    }

    /// Takes one line more, and says whether it is of a trace's form. After a line that is not, nothing is known of what was said.
    #[tactic(auto, unfolding(crate::specs::Courses::with_line_more))]
    pub(crate) fn take(&mut self, line: &[u8]) -> Result<bool, OutOfMemory>
        ensures { IfOk result (λ good. Takes good (spec.with_line_more self.old line.now) self.new) }
    {
        if !self.begun {
            return Ok(self.take_first(line));
        }
        let first = first_byte(line);
        if first == b'p' {
            return if self.takes_party() {
                self.take_party(line)
            } else {
                Ok(false)
            };
        }
        if first == b's' {
            return if self.takes_steps() {
                self.take_steps(line)
            } else {
                Ok(false)
            };
        }
        if first == b'e' {
            return if self.takes_ending() {
                self.take_ending(line)
            } else {
                Ok(false)
            };
        }
        if self.takes_crossing() {
            self.take_crossing(line)
        } else {
            Ok(false)
        }
    }

    /// What the trace says, if the last line stands there.
    pub(crate) fn into_trace(self) -> Option<Trace>
        ensures { result ≡ spec.trace_of self }
    {
        match self.ending {
            None => None,
            Some(ending) => Some(Trace {
                parties: self.names,
                lines: self.lines,
                steps: self.steps,
                ending,
            }),
        }
    }
}

/// Whether both are true.
fn both(a: bool, b: bool) -> bool
    ensures { result ≡ (a && b) }
{
    a && b
}

/// The first byte of a line, and 0 where it has none.
fn first_byte(line: &[u8]) -> u8
    ensures { result ≡ get_or line.now 0 0 }
{
    if line.is_empty() { 0 } else { line[0] }
}

/// Whether a name stands before another in byte order.
fn rises(name: &[u8], next: &[u8]) -> bool
    ensures { result ≡ is_lt (order_of_units name.now next.now) }
{
    name.cmp(&next) == Ordering::Less
}
