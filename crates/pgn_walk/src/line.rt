ghost use Rattle.std.specs.Prelude.{◌≡◌, OnOk, length};
ghost use Rattle.pgn_answers.specs.Answers.{answer};
ghost use Rattle.pgn_answers.specs.Savepoints.{live_names};
ghost use Rattle.pgn_model.specs.Walk.{at_act, at_outcome, quitting};
ghost use Rattle.pgn_walk.specs.Steps.{BeginsFrom, IsGivenBy};

use crate::standing::Standing;
use pgn_base::{Command, Copied, Tag};
use pgn_block::{Effect, Kind};
use pgn_language::Act;
use pgn_ledger::{Ending, ToShow};
use pgn_listening::ListenSet;
use std::alloc::{AllocError, Global};
use std::mem;

// A line of the script begins.
impl Standing<'_> {
    /// What it does.
    pub fn begin(&mut self, alloc: Global, act: &Act) -> Result<(), AllocError>
        ensures { OnOk result (BeginsFrom self.old self.new (λ s. at_act s act.now)) }
    {
        match act {
            Act::Run(command) => self.run(alloc, command),
            Act::Signal(flag) => {
                self.owed.set(ToShow::Raising { flag: *flag });
                Ok(())
            }
            Act::Await(flag) => {
                self.owed.set(ToShow::Awaiting { flag: *flag });
                Ok(())
            }
            Act::Quit => {
                self.quit(alloc);
                Ok(())
            }
        }
    }

    // The session quits: its block and its set end, and a listener leaves.
    fn quit(&mut self, alloc: Global)
        ensures { BeginsFrom self.old self.new quitting }
    {
        self.block.drop_block();
        let seed = self.set.seed();
        drop(mem::replace(&mut self.set, ListenSet::new(alloc, seed)));
        self.watch.clear();
        if self.mark.is_some() {
            self.owed.set(ToShow::Quitting);
        }
    }

    // A command begins.
    fn run(&mut self, alloc: Global, command: &Command) -> Result<(), AllocError>
        ensures { OnOk result (BeginsFrom self.old self.new
            (λ s. at_outcome s command.now (answer s.block (live_names s.changes) s.set command.now))) }
    {
        let effect = self.block.step(command.copy(alloc)?)?;
        self.give(alloc, effect)
    }

    // What the block gave for it is to be shown.
    #[tactic(auto, using(crate::proofs::LineLaws::gives_nothing))]
    fn give(&mut self, alloc: Global, effect: Effect) -> Result<(), AllocError>
        ensures { OnOk result (IsGivenBy self.old effect
            self.old.set.channels (length self.old.set.channels) self.new) }
    {
        match effect {
            Effect::Nothing => Ok(()),
            Effect::Reply { tag, warning } => {
                self.answer(Ending::Replied { tag, warning });
                Ok(())
            }
            Effect::Refuse { refusal } => {
                self.answer(Ending::Refused { refusal });
                Ok(())
            }
            Effect::Query { kind } => self.ask(alloc, kind),
            Effect::Commit {
                actions,
                notes,
                tag,
            } => self.commit(actions, notes, Ending::Replied { tag, warning: None }),
        }
    }

    // The answer is to be shown.
    fn answer(&mut self, ending: Ending)
        ensures { self.new ≡ record self.old { owed = ToShow.Answering ending } }
    {
        self.owed.set(ToShow::Answering { ending });
    }

    // What is asked for is to be shown.
    fn ask(&mut self, alloc: Global, kind: Kind) -> Result<(), AllocError>
        ensures { OnOk result (IsGivenBy self.old (Effect.Query kind)
            self.old.set.channels (length self.old.set.channels) self.new) }
    {
        match kind {
            Kind::ListeningChannels => self.list(alloc),
            Kind::QueueUsage => {
                self.owed.set(ToShow::Measuring {
                    ending: Ending::Replied {
                        tag: Tag::Select(1),
                        warning: None,
                    },
                });
                Ok(())
            }
        }
    }

    // The channels are to be shown, and then their number. More than a tag can count have no place in memory.
    fn list(&mut self, alloc: Global) -> Result<(), AllocError>
        ensures { OnOk result (self.new ≡ record self.old { owed = ToShow.Listing self.old.set.channels (Ending.Replied (Tag.Select (length self.old.set.channels)) None) }) }
    {
        let names = self.set.names(alloc)?;
        let Ok(count) = u32::try_from(names.as_slice().len()) else {
            drop(names);
            return Err(AllocError);
        };
        self.owed.set(ToShow::Listing {
            names,
            ending: Ending::Replied {
                tag: Tag::Select(count),
                warning: None,
            },
        });
        Ok(())
    }
}
