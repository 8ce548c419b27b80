// Answers of the outside.

ghost use Rattle.std.specs.Prelude.{◌≡◌, ◌<◌, false, length, IfOk, OnErr, OnOk, true};
ghost use Rattle.js_world.specs.Asked_outside.{Answers, GoesOnAfter};

use crate::world::World;
use js_crossing::ending::Turn;
use js_crossing::js_machine::outside::HostAnswer;
use js_crossing::js_machine::stop::{Pause, Stop};
use js_machine_run::js_machine_modules::outside::answer_outside;
use js_machine_run::run::run_on;
use js_store::store::Store;
use lava_base::memory::OutOfMemory;

impl<S: Store> World<S> {
    /// The party in the machine goes on with an answer of the outside, until it stops. Want of
    /// memory is answered where there is no such party.
    fn go_on_after(&mut self, pause: Pause, answer: HostAnswer) -> Result<Stop, OutOfMemory>
        ensures goes { IfOk result (GoesOnAfter pause answer self.old.machine self.new.machine) }
        ensures there { OnOk result (self.old.machine.me < length self.old.others) }
        ensures rest { OnOk result (self.new ≡ record self.old { machine = self.new.machine }) }
    {
        if self.machine.party().0 as usize >= self.others.len() {
            return Err(OutOfMemory);
        }
        let mode = answer_outside(&mut self.machine, answer)?;
        run_on(&mut self.machine, None, pause, mode)
    }

    /// The outside answers, and the machine goes on to the end of the crossing.
    fn answer_on(&mut self, pause: Pause, answer: HostAnswer) -> Result<Turn, OutOfMemory>
        ensures { IfOk result (Answers pause answer self.old self.new) }
    {
        let stop = self.go_on_after(pause, answer)?;
        self.follow(stop)
    }

    /// The outside answers the newest call of the party in the machine, at which a crossing paused,
    /// and the machine goes on to the end of the crossing. Want of memory is answered too after
    /// want of memory.
    pub fn answer(&mut self, pause: Pause, answer: HostAnswer) -> Result<Turn, OutOfMemory>
        ensures answers { IfOk result (Answers pause answer self.old self.new) }
        ensures enough { OnOk result (self.old.short ≡ false) }
        ensures short { OnErr result (self.new.short ≡ true) }
    {
        if self.short {
            return Err(OutOfMemory);
        }
        match self.answer_on(pause, answer) {
            Ok(turn) => Ok(turn),
            Err(short) => {
                self.short = true;
                Err(short)
            }
        }
    }
}
