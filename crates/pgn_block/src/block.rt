ghost use Rattle.std.specs.Prelude.{◌≡◌, ◌↔◌, ℕ, List, ◌++◌, IsTrue, IsErr, IfOk, OnOk, OnErr};
ghost use Rattle.pgn_answers.specs.Savepoints.{Change, changes_of, live_names};
ghost use Rattle.pgn_answers.specs.Answers.{answer, next_state, list_after};
ghost use Rattle.pgn_block.specs.Kept.{HasHistory, StandsFor};
ghost use Rattle.pgn_block.specs.Views.{idle_view};
ghost use Rattle.pgn_block.specs.Effects.{effect_of, takes_memory};

use crate::Effect;
use crate::stage::Stage;
use pgn_answers::BlockState;
use pgn_base::{Command, Seed};
use std::alloc::{AllocError, Global};
use std::marker::Model;

/// A session's transaction block. Contracts see it as `BlockView`: its state, and what is kept of its open transaction.
pub struct Block {
    stage: Stage,
}

// Written out, so that this crate proves it once for all that drop one.
impl Drop for Block {
    fn drop(self) {
        let Block { stage: _ } = self;
    }
}

impl Model for Block {
    ghost use Rattle.pgn_block.specs.Kept.{HasHistory};
    ghost use Rattle.pgn_block.specs.Views.{BlockView, view_of};

    ghost Value = { BlockView };

    ghost view = { λ block. view_of block.stage };

    ghost invariant = { λ block. HasHistory (view_of block.stage).kept };
}

impl Block {
    /// No block is open. Hashes are made with this seed. It takes no memory.
    pub fn new(alloc: Global, seed: Seed) -> Block
        ensures { result ≡ idle_view }
    {
        Block {
            stage: Stage::Idle { alloc, seed },
        }
    }

    /// Where the session stands with its block.
    pub fn state(&self) -> BlockState
        ensures { result ≡ self.now.state }
    {
        self.stage.state()
    }

    /// A command is answered by the table of answers, whatever the session's listening set. Where memory does not suffice, the
    /// block is as it was.
    pub fn step(&mut self, command: Command) -> Result<Effect, AllocError>
        ensures effect { IfOk result (λ effect. (changes : List Change) (set : List (List ℕ)) → StandsFor changes self.old.kept
            → effect ≡ effect_of (changes ++ changes_of command) (answer self.old.state (live_names changes) set command)) }
        ensures state { OnOk result ((changes : List Change) (set : List (List ℕ)) → StandsFor changes self.old.kept
            → self.new.state ≡ next_state self.old.state (answer self.old.state (live_names changes) set command)) }
        ensures list { OnOk result ((changes : List Change) (set : List (List ℕ)) → StandsFor changes self.old.kept
            → StandsFor (list_after changes command (answer self.old.state (live_names changes) set command)) self.new.kept) }
        ensures nothing { (result ≡ Ok Effect.Nothing) ↔ (command ≡ Command.Empty) }
        ensures memory { IsErr result → IsTrue (takes_memory self.old.state command) }
        ensures unchanged { OnErr result (self.new ≡ self.old) }
    {
        self.stage.step(command)
    }

    /// Rolls back what is open, and leaves no block. It takes no memory.
    pub fn drop_block(&mut self)
        ensures { self.new ≡ idle_view }
    {
        drop(self.stage.take());
    }
}

/// Each block stands for some history, so that what `step` says of all of its histories it says of one.
pub fn each_has_a_history(block: &Block)
    ensures { HasHistory block.now.kept }
{
    // A field is named, so that the type's invariant is at hand.
    let _ = &block.stage;
}
