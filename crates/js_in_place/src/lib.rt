// Forms that a run goes through in place: a value that is given comes on no stack, and a frame takes it at once.
//
// - `spot` is where such a run stands, `seat` how far a form got, `stands` the one from the other.
// - `form` has forms that hold others, `lists` lists of one form, `turns` what a turn of a loop does at once, `leaves` forms that are done at once, or wait for one, `here` what is done at once, `back` the frames that wait for these.
// - `calls` has calls of the party's own functions, `enter` how their bodies begin, `returns` how they end, `functions` how a function is made, `resume` what a value that is given comes to.
// - `frames` has the newest frame, `waits` what stands before a form, `scopes` what is done with scopes, `deliver` frames that a value comes to.
// - `run` goes on as long as there is something to do.
#![tactic(auto)]

pub mod back;
pub mod calls;
pub mod deliver;
pub mod enter;
pub mod form;
pub mod frames;
pub mod functions;
pub mod here;
pub mod leaves;
pub mod lists;
pub mod resume;
pub mod returns;
pub mod run;
pub mod scopes;
pub mod seat;
pub mod spot;
pub mod stands;
pub mod turns;
pub mod waits;

pub use js_direct;
pub use js_machine_calls;
pub use js_machine_statements;
