// A run of all parties.

ghost use Rattle.std.specs.Prelude.{◌≡◌, IfOk, OnErr, OnOk, false, true};
ghost use Rattle.js_world.specs.Ends.{Ends, runs_still};

use crate::world::World;
use js_crossing::ending::Turn;
use js_crossing::js_machine::frame::Mode;
use js_store::store::Store;
use lava_base::memory::OutOfMemory;

impl<S: Store> World<S> {
    /// Runs all parties, each in its turn, to the end or to a call of the outside. Want of memory
    /// is answered too after want of memory, after 18,446,744,073,709,551,615 crossings, and where `cross` says so.
    pub fn run_to_end(&mut self, mode: Mode) -> Result<Turn, OutOfMemory>
        ensures ends { IfOk result (Ends self.old mode self.new) }
        ensures stops { IfOk result (λ t. runs_still t ≡ false) }
        ensures enough { OnOk result (self.old.short ≡ false) }
        ensures short { OnErr result (self.new.short ≡ true) }
    {
        if self.short {
            return Err(OutOfMemory);
        }
        let mut mode = mode;
        for _i in 0..u64::MAX {
            match self.cross(mode)? {
                Turn::Runs(next) => mode = next,
                Turn::Over(ending) => return Ok(Turn::Over(ending)),
                Turn::Asks(pause) => return Ok(Turn::Asks(pause)),
            }
        }
        self.short = true;
        Err(OutOfMemory)
    }
}
