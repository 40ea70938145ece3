ghost use Rattle.std.specs.Prelude.{◌≡◌, ℕ, not, List, [], ◌∷◌, IsTrue, IsErr, IfOk, OnErr};
ghost use Rattle.pgn_answers.specs.Savepoints.{Change, Acted, Noted};
ghost use Rattle.pgn_answers.specs.Answers.{Commits};
ghost use Rattle.pgn_answers.specs.laws.Answers.{is_in_block, is_failed};
ghost use Rattle.pgn_block.specs.Kept.{StandsFor};
ghost use Rattle.pgn_block.specs.Views.{view_of, idle_view};
ghost use Rattle.pgn_block.specs.Effects.{effect_of, takes_memory};
ghost use Rattle.pgn_block.specs.Steps.{Steps, IsStep, failed_view, open_view, opens, sends, asks};

use crate::pending::{NoSuch, Pending};
use crate::{Effect, Kind};
use pgn_answers::BlockState;
use pgn_base::{
    Action, Actions, Command, Name, Needs, Note, Notes, Refusal, Seed, Seq, Tag, Warning, Which,
};
use std::alloc::{AllocError, Global};
use std::mem;

/// Whether a block is open, with what is pending in it. In a failed block that is kept, since ROLLBACK TO goes back to what was
/// before a savepoint. Each has the allocator and the seed, from which a new block is made.
#[derive(Drop)]
pub(crate) enum Stage {
    Idle {
        alloc: Global,
        seed: Seed,
    },
    Open {
        failed: bool,
        alloc: Global,
        seed: Seed,
        pending: Pending,
    },
}

// The commands, by the rows of the table of answers.
impl Stage {
    // The command's row. Where memory does not suffice, nothing has changed.
    pub(crate) fn step(&mut self, command: Command) -> Result<Effect, AllocError>
        ensures ok { IfOk result (λ effect. IsStep self.old command effect self.new) }
        ensures memory { IsErr result → IsTrue (takes_memory (view_of self.old).state command) }
        ensures unchanged { OnErr result (self.new ≡ self.old) }
    {
        match command {
            Command::Empty => Ok(Effect::Nothing),
            Command::Begin => Ok(self.begin(Tag::Begin)),
            Command::Start => Ok(self.begin(Tag::Start)),
            Command::Commit => Ok(self.commit()),
            Command::Rollback => Ok(self.rollback()),
            Command::Savepoint(name) => self.savepoint(name),
            Command::RollbackTo(name) => Ok(self.rollback_to(name)),
            Command::Release(name) => Ok(self.release(name)),
            Command::Listen(name) => self.act(Action::Listen(name), Tag::Listen),
            Command::Unlisten(name) => self.act(Action::Unlisten(name), Tag::Unlisten),
            Command::UnlistenAll => self.act(Action::UnlistenAll, Tag::Unlisten),
            Command::Notify(note) => self.notify(note, Tag::Notify),
            Command::PgNotify(note) => self.notify(note, Tag::Select(1)),
            Command::ListeningChannels => Ok(self.query(Kind::ListeningChannels)),
            Command::QueueUsage => Ok(self.query(Kind::QueueUsage)),
            Command::Invalid { which } => Ok(self.invalid(which)),
            Command::Bad { at } => Ok(self.bad(at)),
        }
    }

    // BEGIN and START TRANSACTION, which have their tags.
    fn begin(&mut self, tag: Tag) -> Effect
        ensures { Steps self.old [] (λ _. opens tag (view_of self.old).state) result self.new }
    {
        match self {
            Stage::Idle { alloc, seed } => {
                let alloc = *alloc;
                let seed = *seed;
                let pending = Pending::new(alloc, seed);
                drop(mem::replace(
                    self,
                    Stage::Open {
                        failed: false,
                        alloc,
                        seed,
                        pending,
                    },
                ));
                Effect::Reply { tag, warning: None }
            }
            Stage::Open { failed: false, .. } => Effect::Reply {
                tag,
                warning: Some(Warning::AlreadyInBlock),
            },
            Stage::Open { failed: true, .. } => aborted(),
        }
    }

    // COMMIT, which rolls a failed block back.
    fn commit(&mut self) -> Effect
        ensures { IsStep self.old Command.Commit result self.new }
    {
        match self.take() {
            Stage::Idle { .. } => Effect::Reply {
                tag: Tag::Commit,
                warning: Some(Warning::NotInBlock),
            },
            Stage::Open {
                failed: false,
                pending,
                ..
            } => commit_of(pending, Tag::Commit),
            Stage::Open { failed: true, .. } => done(Tag::Rollback),
        }
    }

    // ROLLBACK.
    fn rollback(&mut self) -> Effect
        ensures { IsStep self.old Command.Rollback result self.new }
    {
        let was = self.state();
        drop(self.take());
        match was {
            BlockState::Idle => Effect::Reply {
                tag: Tag::Rollback,
                warning: Some(Warning::NotInBlock),
            },
            BlockState::InBlock | BlockState::Failed => done(Tag::Rollback),
        }
    }

    // SAVEPOINT.
    fn savepoint(&mut self, name: Name) -> Result<Effect, AllocError>
        ensures ok { IfOk result (λ effect. IsStep self.old (Command.Savepoint name) effect self.new) }
        ensures memory { IsErr result → IsTrue (is_in_block (view_of self.old).state) }
        ensures err { OnErr result (self.new ≡ self.old) }
    {
        match self {
            Stage::Idle { .. } => Ok(needs_block(Needs::Savepoint)),
            Stage::Open {
                failed: false,
                pending,
                ..
            } => {
                pending.mark(name)?;
                Ok(done(Tag::Savepoint))
            }
            Stage::Open { failed: true, .. } => Ok(aborted()),
        }
    }

    // ROLLBACK TO, by which a failed block goes on from a live savepoint.
    fn rollback_to(&mut self, name: Name) -> Effect
        ensures { IsStep self.old (Command.RollbackTo name) result self.new }
    {
        match self {
            Stage::Idle { .. } => {
                drop(name);
                needs_block(Needs::RollbackTo)
            }
            Stage::Open {
                failed: false,
                pending,
                ..
            } => match pending.back_to(&name) {
                Ok(()) => {
                    drop(name);
                    done(Tag::Rollback)
                }
                Err(NoSuch) => self.refuse(Refusal::NoSavepoint { name }),
            },
            Stage::Open {
                failed: true,
                pending,
                ..
            } => match pending.back_to(&name) {
                Ok(()) => {
                    drop(name);
                    self.reopen();
                    done(Tag::Rollback)
                }
                Err(NoSuch) => self.refuse(Refusal::NoSavepoint { name }),
            },
        }
    }

    // RELEASE.
    fn release(&mut self, name: Name) -> Effect
        ensures { IsStep self.old (Command.Release name) result self.new }
    {
        match self {
            Stage::Idle { .. } => needs_block(Needs::Release),
            Stage::Open {
                failed: false,
                pending,
                ..
            } => match pending.release(&name) {
                Ok(()) => done(Tag::Release),
                Err(NoSuch) => self.refuse(Refusal::NoSavepoint { name }),
            },
            Stage::Open { failed: true, .. } => aborted(),
        }
    }

    // LISTEN and UNLISTEN, which commit outside a block.
    fn act(&mut self, action: Action, tag: Tag) -> Result<Effect, AllocError>
        ensures ok { IfOk result (λ effect. Steps self.old (Acted action ∷ []) (λ _. sends tag (view_of self.old).state) effect self.new) }
        ensures memory { IsErr result → IsTrue (not (is_failed (view_of self.old).state)) }
        ensures err { OnErr result (self.new ≡ self.old) }
    {
        match self {
            Stage::Idle { alloc, .. } => {
                let actions = only(*alloc, action)?;
                let notes = Notes::new(*alloc);
                Ok(Effect::Commit {
                    actions,
                    notes,
                    tag,
                })
            }
            Stage::Open {
                failed: false,
                pending,
                ..
            } => {
                pending.action(action)?;
                Ok(done(tag))
            }
            Stage::Open { failed: true, .. } => Ok(aborted()),
        }
    }

    // NOTIFY and pg_notify, which commit outside a block.
    fn notify(&mut self, note: Note, tag: Tag) -> Result<Effect, AllocError>
        ensures ok { IfOk result (λ effect. Steps self.old (Noted note ∷ []) (λ _. sends tag (view_of self.old).state) effect self.new) }
        ensures memory { IsErr result → IsTrue (not (is_failed (view_of self.old).state)) }
        ensures err { OnErr result (self.new ≡ self.old) }
    {
        match self {
            Stage::Idle { alloc, .. } => {
                let notes = only(*alloc, note)?;
                let actions = Actions::new(*alloc);
                Ok(Effect::Commit {
                    actions,
                    notes,
                    tag,
                })
            }
            Stage::Open {
                failed: false,
                pending,
                ..
            } => {
                pending.note(note)?;
                Ok(done(tag))
            }
            Stage::Open { failed: true, .. } => {
                drop(note);
                Ok(aborted())
            }
        }
    }

    // The channels and the usage, which are the session's to show.
    fn query(&self, kind: Kind) -> Effect
        ensures { (set : List (List ℕ)) → Steps self.now [] (λ _. asks kind set (view_of self.now).state) result self.now }
    {
        match self {
            Stage::Idle { .. } | Stage::Open { failed: false, .. } => Effect::Query { kind },
            Stage::Open { failed: true, .. } => aborted(),
        }
    }

    // A line past a limit of pg_notify or NOTIFY.
    fn invalid(&mut self, which: Which) -> Effect
        ensures { IsStep self.old (Command.Invalid which) result self.new }
    {
        if let Stage::Open { failed: true, .. } = self {
            return aborted();
        }
        self.refuse(Refusal::Bounds { which })
    }

    // A line that is no command is told so in a failed block too.
    fn bad(&mut self, at: u32) -> Effect
        ensures { IsStep self.old (Command.Bad at) result self.new }
    {
        self.refuse(Refusal::Syntax { at })
    }
}

// What the commands are made of.
impl Stage {
    // The state that this is.
    pub(crate) fn state(&self) -> BlockState
        ensures { result ≡ (view_of self.now).state }
    {
        match self {
            Stage::Idle { .. } => BlockState::Idle,
            Stage::Open { failed: false, .. } => BlockState::InBlock,
            Stage::Open { failed: true, .. } => BlockState::Failed,
        }
    }

    // Takes the stage out, and leaves no block.
    pub(crate) fn take(&mut self) -> Stage
        ensures taken { result ≡ self.old }
        ensures left { view_of self.new ≡ idle_view }
    {
        let alloc = self.alloc();
        let seed = self.seed();
        mem::replace(self, Stage::Idle { alloc, seed })
    }

    // The refusal. An open block fails.
    fn refuse(&mut self, refusal: Refusal) -> Effect
        ensures effect { result ≡ Effect.Refuse refusal }
        ensures failed { view_of self.new ≡ failed_view (view_of self.old) }
    {
        self.fail();
        Effect::Refuse { refusal }
    }

    // An open block fails.
    fn fail(&mut self)
        ensures { view_of self.new ≡ failed_view (view_of self.old) }
    {
        if let Stage::Open { failed, .. } = self {
            *failed = true;
        }
    }

    // A failed block goes on.
    fn reopen(&mut self)
        ensures { view_of self.new ≡ open_view (view_of self.old) }
    {
        if let Stage::Open { failed, .. } = self {
            *failed = false;
        }
    }

    // What the next block's memory is taken from.
    fn alloc(&self) -> Global {
        match self {
            Stage::Idle { alloc, .. } => *alloc,
            Stage::Open { alloc, .. } => *alloc,
        }
    }

    // What the next block's hashes are made with.
    fn seed(&self) -> Seed {
        match self {
            Stage::Idle { seed, .. } => *seed,
            Stage::Open { seed, .. } => *seed,
        }
    }
}

// The tag, without a warning.
fn done(tag: Tag) -> Effect
    ensures { result ≡ Effect.Reply tag None }
{
    Effect::Reply { tag, warning: None }
}

// What a failed block answers to most commands.
fn aborted() -> Effect
    ensures { result ≡ Effect.Refuse Refusal.Aborted }
{
    Effect::Refuse {
        refusal: Refusal::Aborted,
    }
}

// The command can only be used in a block.
fn needs_block(what: Needs) -> Effect
    ensures { result ≡ Effect.Refuse (Refusal.NeedsBlock what) }
{
    Effect::Refuse {
        refusal: Refusal::NeedsBlock { what },
    }
}

// A list of one, with room for no more.
fn only<T: Drop>(alloc: Global, item: T) -> Result<Seq<T>, AllocError>
    ensures { IfOk result (λ items. items ≡ item ∷ []) }
{
    let mut items = Vec::with_capacity(alloc, 1)?;
    items.push(item)?;
    Ok(Seq::from_items(items))
}

// A commit, which hands out what is left of these.
fn commit_of(pending: Pending, tag: Tag) -> Effect
    ensures { (changes : List Change) → StandsFor changes pending → result ≡ effect_of changes (Commits tag) }
{
    let (actions, notes) = pending.finish();
    Effect::Commit {
        actions,
        notes,
        tag,
    }
}
