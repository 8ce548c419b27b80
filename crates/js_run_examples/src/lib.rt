//! Worked examples of the model of a run: small programs, each with what it prints, how many steps it takes and how it ends. Laws alone.
//!
//! - `Terms` has how a term is written, `CommonPart` what the programs find of the common part, `Alone` the application of one module and what is seen of its run.
//! - Each other file of definitions has the programs of one kind of form; a function here has what they do.
#![tactic(auto)]

pub mod commons;

ghost use Rattle.js_run_examples.specs.Classes.{Derived_constructor, No_this_before_super, Super_properties};
ghost use Rattle.js_run_examples.specs.Functions.{Called_or_constructed, Recursion, Rest_parameter};
ghost use Rattle.js_run_examples.specs.Literals.{Literal_is_printed, Throw_ends, Unsafe_literal_ends, Unsafe_sum_ends};
ghost use Rattle.js_run_examples.specs.Loops.{Closures_in_a_loop, Jumps_to_labels};
ghost use Rattle.js_run_examples.specs.Objects.{Deleted_property, Getter};
ghost use Rattle.js_run_examples.specs.Patterns.{Array_pattern};
ghost use Rattle.js_run_examples.specs.Tries.{Finally_after_a_return, Finally_after_a_throw};

/// Literals, and what ends a run.
#[tactic(none)]
pub fn literals_run()
    ensures printed { Literal_is_printed }
    ensures unsafe_sum { Unsafe_sum_ends }
    ensures unsafe_literal { Unsafe_literal_ends }
    ensures thrown { Throw_ends }
{}

/// Loops, and the jumps that leave them.
#[tactic(none)]
pub fn loops_run()
    ensures closures { Closures_in_a_loop }
    ensures jumps { Jumps_to_labels }
{}

/// `try` with what stands last.
#[tactic(none)]
pub fn tries_run()
    ensures after_a_return { Finally_after_a_return }
    ensures after_a_throw { Finally_after_a_throw }
{}

/// Functions, their arguments and `new.target`.
#[tactic(none)]
pub fn functions_run()
    ensures recursion { Recursion }
    ensures rest { Rest_parameter }
    ensures new_target { Called_or_constructed }
{}

/// Properties.
#[tactic(none)]
pub fn objects_run()
    ensures getter { Getter }
    ensures deleted { Deleted_property }
{}

/// Classes.
#[tactic(none)]
pub fn classes_run()
    ensures derived { Derived_constructor }
    ensures super_properties { Super_properties }
    ensures no_this { No_this_before_super }
{}

/// Patterns over an iterator.
#[tactic(none)]
pub fn patterns_run()
    ensures { Array_pattern }
{}
