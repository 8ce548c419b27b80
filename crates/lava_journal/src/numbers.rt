// The numbers of the objects and made symbols that left their parties.

ghost use Rattle.std.specs.Prelude.{◌≡◌, ℕ, ◌+◌, ◌==◌, if◌then◌else◌, false, None, IfOk, OnOk, OnErr};
ghost use Rattle.lava_journal.specs.Counts.{counted};
ghost use Rattle.lava_journal.specs.Sheets.{count_of, no_names, number_of, known_object, known_symbol, number_at_start, count_at_start, with_object, with_symbol, with_shown, is_shown, is_fixed};

use indexmap::{IndexMap, IndexSet};
use lava_base::ids::{MadeSymbol, ObjId, PartyId, Ref};
use lava_base::memory::OutOfMemory;
use std::alloc::Global;
use std::marker::Model;

/// How many fixed references the host has: its objects below this one are named by their own numbers, and never marked.
pub const HOST_OBJECTS: u32 = 12;

/// What a trace has named. Each call takes a constant number of look-ups.
#[derive(Drop)]
pub(crate) struct Numbers {
    /// The objects that left their party, in order, with their numbers.
    objects: IndexMap<Ref, u64>,
    /// The made symbols that left their party, in order, with their numbers.
    symbols: IndexMap<MadeSymbol, u64>,
    /// The references that stood in a crossing.
    shown: IndexSet<Ref>,
    /// How many have left a party, for each party of which some has after the start.
    counts: IndexMap<u32, u64>,
}

impl Model for Numbers {
    ghost use Rattle.lava_journal.specs.Counts.{Counts};
    ghost use Rattle.lava_journal.specs.Sheets.{TraceNames, names_of};

    ghost Value = { TraceNames };

    ghost view = { λ n. names_of n.objects.entries n.symbols.entries n.shown.keys };

    ghost invariant = { λ n. Counts n.counts.entries n.objects.entries n.symbols.entries };
}

/// The number that is given at the start: each of the host's fixed references has its own, and the global of `$root$` has 0.
fn start_number(party: PartyId, id: ObjId) -> Option<u64>
    ensures { result ≡ number_at_start party.0 id.0 }
{
    if party.0 == 0 && id.0 < HOST_OBJECTS {
        return Some(id.0 as u64);
    }
    if party.0 == 1 && id.0 == 0 {
        return Some(0);
    }
    None
}

/// How many numbers of a party are given at the start.
fn start_count(party: u32) -> u64
    ensures { result ≡ count_at_start party }
{
    match party {
        0 => HOST_OBJECTS as u64,
        1 => 1,
        _ => 0,
    }
}

/// Takes the next number of a party.
fn take_number(counts: &mut IndexMap<u32, u64>, party: u32) -> Result<u64, OutOfMemory>
    ensures number { IfOk result (λ n. n ≡ counted counts.old.entries party) }
    ensures counts { OnOk result ((q : ℕ) → counted counts.new.entries q
        ≡ counted counts.old.entries q + (if party == q then 1 else 0)) }
    ensures err { OnErr result (counts.new.entries ≡ counts.old.entries) }
{
    let number = match counts.get(&party) {
        Some(count) => *count,
        None => start_count(party),
    };
    match number.checked_add(1) {
        None => Err(OutOfMemory),
        Some(next) => {
            counts.insert(party, next)?;
            Ok(number)
        }
    }
}

impl Numbers {
    /// Nothing is named yet. It takes no memory.
    pub(crate) fn new(alloc: Global) -> Numbers
        ensures { result ≡ no_names }
    {
        Numbers {
            objects: IndexMap::new(alloc),
            symbols: IndexMap::new(alloc),
            shown: IndexSet::new(alloc),
            counts: IndexMap::new(alloc),
        }
    }

    /// The number of an object that is known.
    fn known_object(&self, party: PartyId, id: ObjId) -> Option<u64>
        ensures { result ≡ known_object self.now party id }
    {
        match start_number(party, id) {
            Some(number) => Some(number),
            None => self.objects.get(&Ref::Own { party, id }).copied(),
        }
    }

    /// The number of an object, which is named by it from now on.
    pub(crate) fn object(&mut self, party: PartyId, id: ObjId) -> Result<u64, OutOfMemory>
        ensures number { let known = known_object self.old party id in
            IfOk result (λ n. n ≡ number_of self.old party.0 known) }
        ensures names { let known = known_object self.old party id in
            OnOk result (self.new ≡ with_object self.old party id known) }
    {
        match self.known_object(party, id) {
            Some(number) => Ok(number),
            None => self.add_object(party, id),
        }
    }

    /// The number of an object that is new.
    fn add_object(&mut self, party: PartyId, id: ObjId) -> Result<u64, OutOfMemory>
        requires { known_object self.old party id ≡ None }
        ensures number { IfOk result (λ n. n ≡ count_of self.old party.0) }
        ensures names { OnOk result (self.new ≡ with_object self.old party id None) }
    {
        self.objects.reserve(1)?;
        let number = take_number(&mut self.counts, party.0)?;
        self.objects.insert(Ref::Own { party, id }, number)?;
        Ok(number)
    }

    /// The number of a made symbol, which is named by it from now on.
    pub(crate) fn symbol(&mut self, symbol: MadeSymbol) -> Result<u64, OutOfMemory>
        ensures number { let known = known_symbol self.old symbol in
            IfOk result (λ n. n ≡ number_of self.old symbol.party.0 known) }
        ensures names { let known = known_symbol self.old symbol in
            OnOk result (self.new ≡ with_symbol self.old symbol known) }
    {
        match self.symbols.get(&symbol) {
            Some(number) => Ok(*number),
            None => self.add_symbol(symbol),
        }
    }

    /// The number of a made symbol that is new.
    fn add_symbol(&mut self, symbol: MadeSymbol) -> Result<u64, OutOfMemory>
        requires { known_symbol self.old symbol ≡ None }
        ensures number { IfOk result (λ n. n ≡ count_of self.old symbol.party.0) }
        ensures names { OnOk result (self.new ≡ with_symbol self.old symbol None) }
    {
        self.symbols.reserve(1)?;
        let number = take_number(&mut self.counts, symbol.party.0)?;
        self.symbols.insert(symbol, number)?;
        Ok(number)
    }

    /// Whether a reference has stood in a crossing or is one of the host's fixed ones, so that it is not marked again.
    pub(crate) fn is_shown(&self, reference: Ref) -> bool
        ensures { result ≡ is_shown self.now reference }
    {
        is_fixed(reference) || self.shown.contains(&reference)
    }

    /// Has a reference stand in a crossing for the first time.
    pub(crate) fn show(&mut self, reference: Ref) -> Result<(), OutOfMemory>
        requires { is_shown self.old reference ≡ false }
        ensures { OnOk result (self.new ≡ with_shown self.old reference) }
    {
        self.shown.insert(reference)?;
        Ok(())
    }
}

/// Whether a reference is one of the host's fixed ones.
fn is_fixed(reference: Ref) -> bool
    ensures { result ≡ is_fixed reference }
{
    match reference {
        Ref::Common(_) => false,
        Ref::Own { party, id } => party.0 == 0 && id.0 < HOST_OBJECTS,
    }
}
