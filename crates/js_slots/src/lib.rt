// The tables behind Map, Set and WeakMap, and what the natives that look into them give.
//
// - `entry` has the places of a table, which stand in order of insertion; `table_key` has their keys, for an index beside them.
// - `laws` states that a table is a finite map with an order of insertion.
//
// Definitions are in specs/: `Tables` says what each operation makes of the list of places, `TableAnswers` what the natives `mapGet`, `mapSet`,
// `mapHas`, `mapDelete`, `mapClear`, `mapNext`, `mapKeyAt` and `mapSize` give, `Laws` what follows. js_store has the code.
#![tactic(auto)]

pub mod entry;
pub mod laws;
pub mod table_key;
