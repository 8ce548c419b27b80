// From one crossing to the next.

ghost use Rattle.std.specs.Prelude.{◌≡◌, ◌<◌, [], drop, false, length, IfOk, OnErr, OnOk, Some, true};
ghost use Rattle.js_crossing.specs.js_run.Completions.{reply_of};
ghost use Rattle.js_crossing.specs.js_run.Journal.{end_of, is_host, owner_of};
ghost use Rattle.js_crossing.specs.js_run.Runs.{Asks};
ghost use Rattle.js_crossing.specs.js_machine.Served.{IsServed};
ghost use Rattle.js_crossing.specs.js_machine.Views.{completion_of};
ghost use Rattle.js_crossing.specs.js_machine.declared.stop.Stop.TheVariants as stop;
ghost use Rattle.js_world.specs.Crossings.{Follows, HasGiven, IsResumed, IsTaken, Replies, RunsHere, newest};
ghost use Rattle.js_crossing.specs.Newest.{traced_reply};
ghost use Rattle.js_crossing.specs.Shows.{makes_none};
ghost use Rattle.js_world.specs.Worlds.{Crosses, IsTurnOf, ending_of, noted, sent};

use crate::waiting::Waiting;
use crate::world::World;
use js_crossing::ending::{Ending, Turn};
use js_crossing::js_machine::frame::{Halt, Mode};
use js_crossing::js_machine::own::Left;
use js_crossing::js_machine::stop::Stop;
use js_crossing::newest::owner_of;
use js_crossing::shows::{show_ask, show_reply};
use js_desc::ask::Ask;
use js_desc::reply::Reply;
use js_machine_run::run::run;
use js_store::store::Store;
use lava_base::ids::Ref;
use lava_base::memory::OutOfMemory;

/// The party of the host.
pub(crate) const HOST: u32 = 0;

/// How a run ends by the reply to the host's import.
fn end_of(reply: &Reply) -> Ending
    ensures { ending_of result ≡ end_of reply.now }
{
    match reply {
        Reply::Throw(_) => Ending::Uncaught,
        _ => Ending::Done,
    }
}

/// Whether a party is the host, whose runs are free of charge.
fn is_host(party: u32) -> bool
    ensures { result ≡ is_host party }
{
    party == 0
}

impl<S: Store> World<S> {
    /// The party in the machine runs until it stops. Want of memory is answered where there is no
    /// such party, and where its steps could be too many to be counted.
    fn run_party(&mut self, mode: Mode) -> Result<Stop, OutOfMemory>
        ensures { IfOk result (RunsHere mode self.old self.new) }
    {
        let party = self.machine.party().0;
        let at = party as usize;
        if at >= self.others.len() || at >= self.steps.len() {
            return Err(OutOfMemory);
        }
        let steps = self.steps[at];
        let left = self.budget.saturating_sub(self.spent);
        if left >= u64::MAX - steps {
            return Err(OutOfMemory);
        }
        run(
            &mut self.machine,
            is_host(party),
            None,
            steps + left,
            steps,
            mode,
        )
    }

    /// An ask leaves the party in the machine, and the body that sent it waits.
    fn send_away(&mut self, target: Ref, steps: u64) -> Result<Ask, OutOfMemory>
        ensures ask { IfOk result (λ x. x ≡ self.old.machine.asked.ask) }
        ensures none { OnOk result (makes_none self.old.machine.asked.ask ≡ true) }
        ensures there { OnOk result (self.old.machine.me < length self.old.steps) }
        ensures sent { OnOk result (self.new ≡ sent target steps self.old) }
    {
        let party = self.machine.party().0;
        let ask = self.machine.take_ask();
        self.machine.show(target)?;
        show_ask(&mut self.machine, &ask)?;
        self.charge(party, steps)?;
        self.set_aside()?;
        Ok(ask)
    }

    /// A reply leaves the party in the machine. Want of memory is answered where none came.
    fn give_away(&mut self, mode: Mode, steps: u64) -> Result<Reply, OutOfMemory>
        ensures reply { IfOk result (λ r. r ≡ reply_of (completion_of self.old.machine mode)) }
        ensures there { OnOk result (self.old.machine.me < length self.old.steps) }
        ensures given { IfOk result (λ r. HasGiven r steps self.old self.new) }
    {
        if !mode.is_handed() {
            return Err(OutOfMemory);
        }
        let party = self.machine.party().0;
        let reply = self.machine.take_reply(mode);
        show_reply(&mut self.machine, &reply)?;
        self.charge(party, steps)?;
        Ok(reply)
    }

    /// The newest body that waits is taken off.
    #[tactic(auto, using(js_crossing::proofs::Reversed::reverse_push))]
    fn take_waiting(&mut self) -> Option<Waiting>
        ensures body { result ≡ newest self.old.stack }
        ensures rest { self.new ≡ record self.old { stack = drop 1 self.old.stack } }
    {
        self.stack.pop()
    }

    /// An ask that came is served by the party in the machine.
    fn serve(&mut self, target: Ref, ask: Ask) -> Result<Mode, OutOfMemory>
        requires { self.now.machine.frames ≡ [] }
        ensures served { IfOk result (IsServed target ask self.old.machine self.new.machine) }
        ensures rest { OnOk result (self.new ≡ record self.old { machine = self.new.machine }) }
    {
        self.machine.serve(target, ask)
    }

    /// The party of an object runs, for an ask at the object.
    fn hand_over(&mut self, target: Ref, ask: Ask) -> Result<Mode, OutOfMemory>
        requires { self.now.machine.frames ≡ [] }
        ensures { let receiver = owner_of target in
            IfOk result (IsTaken receiver (Asks target ask) self.old self.new) }
    {
        self.turn_to(owner_of(target))?;
        self.serve(target, ask)
    }

    /// A body goes on with a reply.
    fn go_on(&mut self, left: Left, reply: Reply) -> Result<Mode, OutOfMemory>
        ensures goes { IfOk result (Replies left reply self.old.machine self.new.machine) }
        ensures rest { OnOk result (self.new ≡ record self.old { machine = self.new.machine }) }
    {
        self.machine.take_up(left);
        self.machine.reply(reply)
    }

    /// A body that waits goes on with a reply.
    fn resume(&mut self, waiting: Waiting, reply: Reply) -> Result<Mode, OutOfMemory>
        ensures { IfOk result (IsResumed waiting reply self.old self.new) }
    {
        let Waiting { party, left } = waiting;
        self.turn_to(party)?;
        self.go_on(left, reply)
    }

    /// The machine's ask is sent to a foreign object, whose party runs.
    fn send(&mut self, target: Ref, steps: u64) -> Result<Turn, OutOfMemory>
        ensures { IfOk result (Follows (stop.Sent target steps) self.old self.new) }
    {
        let ask = self.send_away(target, steps)?;
        self.keep_ask(target, &ask)?;
        let mode = self.hand_over(target, ask)?;
        Ok(Turn::Runs(mode))
    }

    /// A reply has left the party in the machine, and a body that waits goes on with it.
    fn go_back(&mut self, waiting: Waiting, reply: Reply) -> Result<Mode, OutOfMemory>
        ensures { let x = traced_reply self.old.machine waiting.party reply in
            IfOk result (IsResumed waiting reply (noted x self.old) self.new) }
    {
        self.keep_reply(waiting.party, &reply)?;
        self.resume(waiting, reply)
    }

    /// The host's import is answered, and the answer is kept.
    fn end_with(&mut self, reply: Reply) -> Turn
        ensures over { IsTurnOf result (end_of reply) }
        ensures kept { self.new ≡ record self.old { last = Some reply } }
    {
        let ending = end_of(&reply);
        self.last = Some(reply);
        Turn::Over(ending)
    }

    /// A body is over, and the newest one that waits goes on with its reply. Where none waits, the
    /// run is over.
    fn hand_back(&mut self, mode: Mode, steps: u64) -> Result<Turn, OutOfMemory>
        ensures { IfOk result (Follows (stop.Gave mode steps) self.old self.new) }
    {
        let reply = self.give_away(mode, steps)?;
        match self.take_waiting() {
            Some(waiting) => {
                let mode = self.go_back(waiting, reply)?;
                Ok(Turn::Runs(mode))
            }
            None => {
                self.keep_reply(HOST, &reply)?;
                Ok(self.end_with(reply))
            }
        }
    }

    /// The budget is used up.
    fn end_short(&mut self, steps: u64) -> Result<Turn, OutOfMemory>
        ensures { IfOk result (Follows (stop.Short steps) self.old self.new) }
    {
        let party = self.machine.party().0;
        self.charge(party, steps)?;
        Ok(Turn::Over(Ending::Budget(party)))
    }

    /// The run ends within a party.
    fn end_within(&mut self, halt: Halt, steps: u64) -> Result<Turn, OutOfMemory>
        ensures { IfOk result (Follows (stop.Stopped halt steps) self.old self.new) }
    {
        let party = self.machine.party().0;
        self.charge(party, steps)?;
        Ok(Turn::Over(Ending::Fault(party, halt)))
    }

    /// What becomes of a run that stops. Where the outside is asked, the crossing goes on with its
    /// answer.
    pub(crate) fn follow(&mut self, stop: Stop) -> Result<Turn, OutOfMemory>
        ensures { IfOk result (Follows stop self.old self.new) }
    {
        match stop {
            Stop::Sent { target, steps } => self.send(target, steps),
            Stop::Gave { mode, steps } => self.hand_back(mode, steps),
            Stop::Stopped { halt, steps } => self.end_within(halt, steps),
            Stop::Short { steps } => self.end_short(steps),
            Stop::Imports { steps } => self.send_import(steps),
            Stop::Outside(pause) => Ok(Turn::Asks(pause)),
        }
    }

    /// To the next crossing, or to a call of the outside before it.
    fn cross_on(&mut self, mode: Mode) -> Result<Turn, OutOfMemory>
        ensures { IfOk result (Crosses self.old mode self.new) }
    {
        let stop = self.run_party(mode)?;
        self.follow(stop)
    }

    /// To the next crossing, or to a call of the outside before it. Want of memory is answered too
    /// after want of memory, where a number of a party is none, where steps could be too many to be
    /// counted, where the table of leads has no such link, and where an ask makes a party.
    pub fn cross(&mut self, mode: Mode) -> Result<Turn, OutOfMemory>
        ensures crosses { IfOk result (Crosses self.old mode self.new) }
        ensures enough { OnOk result (self.old.short ≡ false) }
        ensures short { OnErr result (self.new.short ≡ true) }
    {
        if self.short {
            return Err(OutOfMemory);
        }
        match self.cross_on(mode) {
            Ok(turn) => Ok(turn),
            Err(short) => {
                self.short = true;
                Err(short)
            }
        }
    }
}
