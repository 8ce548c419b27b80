// The state of the machine: frames, values and a party's own things; what all forms share.
//
// - `arguments`: arguments on the stack of values.
// - `asked`: what is asked, what is answered, and what waits for an answer.
// - `asks`: asks at objects and at other values, and their answers.
// - `blocks`: the run ends.
// - `bodies`: bodies that run.
// - `body`: a body that is open.
// - `branches`: what is nullish.
// - `closures`: closures, as the code has them.
// - `conversions`: objects become primitive values and property keys: the frames that wait have the object, and what the value is for below it.
// - `decisions`: what decisions, and what goes on with answers, share.
// - `defaults`: the constructors of classes that have none, as templates of a code.
// - `faults`: errors that the machine throws.
// - `frame`: what waits for a completion, and what is next.
// - `functions`: functions that a form makes.
// - `holding`: the objects on which parts are defined.
// - `instances`: an object is asked for its prototype, where another object is sought.
// - `keys`: the keys that the machine itself names.
// - `looks`: what the machine sees of objects.
// - `machine`: the state of a machine that runs one party.
// - `methods`: methods that are called on values, where the key is a form.
// - `modules`: the objects of a module.
// - `new`: a machine that has done nothing yet.
// - `outside`: calls of the host, and what the outside answers.
// - `own`: what is a party's own while another one runs.
// - `package`: what a party has of its package.
// - `parameters`: the slots of a body's scope: its parameters, which are on the stack of values, and its own names.
// - `places`: what a body runs with.
// - `plain_keys`: property keys of values that are no objects.
// - `requests`: texts of the code and of requests.
// - `rests`: the array of a rest parameter.
// - `running`: the body that runs.
// - `sequences`: lists of forms.
// - `serve`: what a machine does with what comes from other parties.
// - `shown`: what goes to other parties.
// - `slot_asks`: natives that ask a `Slot`: where their object is from is seen first, and only what doesn't cross is charged here.
// - `slots`: where the newest body stands.
// - `stop`: how runs stop.
// - `supers`: properties, methods and calls of `super`.
// - `wakes`: a jump comes to what waits.
// - `ways`: which way an object decides of an ask.
#![tactic(auto)]

pub mod arguments;
pub mod asked;
pub mod asks;
pub mod blocks;
pub mod bodies;
pub mod body;
pub mod branches;
pub mod closures;
pub mod conversions;
pub mod decisions;
pub mod defaults;
pub mod faults;
pub mod frame;
pub mod functions;
pub mod holding;
pub mod instances;
pub mod keys;
pub mod looks;
pub mod machine;
pub mod methods;
pub mod modules;
pub mod new;
pub mod outside;
pub mod own;
pub mod package;
pub mod parameters;
pub mod places;
pub mod plain_keys;
pub mod requests;
pub mod rests;
pub mod running;
pub mod sequences;
pub mod serve;
pub mod shown;
pub mod slot_asks;
pub mod slots;
pub mod stop;
pub mod supers;
pub mod wakes;
pub mod ways;

pub use js_native_steps;
pub use js_operation;
pub use js_operation::{
    js_conversions, js_exotic, js_maker_natives, js_operations, js_proxy, js_run, js_slot_natives,
    js_traps,
};
