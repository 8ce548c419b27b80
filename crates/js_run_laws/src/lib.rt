// The laws of isolation over the model of a run, for every application, budget and number of crossings: laws alone.
#![tactic(auto)]

ghost use Rattle.js_run.specs.Chain.{Journal_is_chain};
ghost use Rattle.js_run.specs.Converted.{Conversions_are_one};
ghost use Rattle.js_run.specs.Laws.{Charges_within, Cut_off_is_its_own, Each_is_its_own, Ends_under_each, Journal_is_lawful, Journal_is_net, Rows_compose};
ghost use Rattle.js_run.specs.Mine.{Each_shows_its_own, Same_things_same_views};
ghost use Rattle.js_run.specs.Sorting.{Places_are_sorted};
ghost use Rattle.js_run.specs.View.{Each_has_its_view, Same_things_same_runs};
ghost use Rattle.js_run_laws.specs.Given.{Alone_is_well_made, Given_is_well_made};

pub use js_run::{
    js_conversions, js_maker_natives, js_object_natives, js_operations, js_slot_natives,
};

/// An application is well made where what its packages are given is marked, listed, and has left its owner.
#[tactic(none)]
pub fn given_is_well_made()
    ensures { Given_is_well_made }
{}

/// So is an application of its own package alone, which is given the whole host: the premise is met.
#[tactic(none)]
pub fn alone_is_well_made()
    ensures { Alone_is_well_made }
{}

/// The one-heap machine's journal, steps and ending are the network's.
#[tactic(none)]
pub fn journal_is_net()
    ensures { Journal_is_net }
{}

/// Each party's steps and crossings are those of its own run, with the marks that were given to it.
#[tactic(none)]
pub fn each_is_its_own()
    ensures { Each_is_its_own }
{}

/// So they are where the run ends with a crossing that was added and not served.
#[tactic(none)]
pub fn cut_off_is_its_own()
    ensures { Cut_off_is_its_own }
{}

/// Each object and made symbol that a party sends is its own, or of the common part, or was given to it.
#[tactic(none)]
pub fn journal_is_lawful()
    ensures { Journal_is_lawful }
{}

/// Control passes from hand to hand, each reply closes the latest open ask, and each import is allowed.
#[tactic(none)]
pub fn journal_is_chain()
    ensures { Journal_is_chain }
{}

/// The rows are a recursion over terms: a term inside another means what it means by itself.
#[tactic(none)]
pub fn rows_compose()
    ensures { Rows_compose }
{}

/// What a party sends, seen from inside, depends on what came to it, seen from inside, alone.
#[tactic(none)]
pub fn each_has_its_view()
    ensures { Each_has_its_view }
{}

/// Two runs with a party of the same things, each under its own number: what it sends is settled by what came to it.
#[tactic(none)]
pub fn same_things_same_runs()
    ensures { Same_things_same_runs }
{}

/// The same in views, where own objects and symbols are numbered in the order of their leaving.
#[tactic(none)]
pub fn same_things_same_views()
    ensures { Same_things_same_views }
{}

/// What is charged under a limit is within it, and is charged under each that has it.
#[tactic(none)]
pub fn charges_within()
    ensures { Charges_within }
{}

/// What ends under a limit ends so under each.
#[tactic(none)]
pub fn ends_under_each()
    ensures { Ends_under_each }
{}

/// On its view of what came a party's own machine shows what the party shows.
#[tactic(none)]
pub fn each_shows_its_own()
    ensures { Each_shows_its_own }
{}

/// A conversion as a decision, which a native follows, is the conversion that a form makes, for each thing that a value may become.
#[tactic(none)]
pub fn conversions_are_one<R, S>()
    ensures { Conversions_are_one R S }
{}

/// What the model's `sortTexts` gives are the places of the texts in their order, as js_native gives them.
#[tactic(none)]
pub fn places_are_sorted()
    ensures { Places_are_sorted }
{}
