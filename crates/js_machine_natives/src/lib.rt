// The forms that name a native.
//
// - `collections`: what keyed collections decide that a native looks into.
// - `kinds`: what `classOf` tells of its operand: a proxy is asked whether it stands before an array.
// - `natives`: forms that name a native: operands, the charge, what the native decides, and how it goes on.
// - `proxies`: what proxies decide, and what follows.
// - `slot_asks`: natives that ask a `Slot`: where their object is from is seen first, and only what doesn't cross is charged here.
// - `to_number`: the numbers that decisions want (ECMA-262, ToNumber).
// - `units`: `fromUnits`, whose items become units one after the other (ECMA-262, String.fromCharCode).
#![tactic(auto)]

pub mod collections;
pub mod kinds;
pub mod natives;
pub mod proxies;
pub mod slot_asks;
pub mod to_number;
pub mod units;

pub use js_natives::js_run_laws;
