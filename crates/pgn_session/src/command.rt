ghost use Rattle.std.specs.Prelude.{◌≡◌, ◌+◌, ◌≤◌, ◌<◌, List, [], ◌∷◌, ◌++◌, drop, length, IfOk, OnOk, OnErr, vec_len, vec_capacity};
ghost use Rattle.pgn_language.specs.declared.scenario.Act.TheVariants as act;
ghost use Rattle.pgn_language.specs.declared.scenario.ScriptLine.{ScriptLine};
ghost use Rattle.pgn_session.specs.Commits.{committing, left_of};
ghost use Rattle.pgn_session.specs.FirstRead.{HasReadFor};
ghost use Rattle.pgn_session.specs.declared.doing.Doing.TheVariants as doing;
ghost use Rattle.pgn_session.specs.Parts.{HasTaken, answered_items, rows_items};
ghost use Rattle.pgn_session.specs.Whole.{HasRest, RestsAt, ComesWith, HasStepped, HasRefused, StepsBetween, StaysBetween};

use crate::commit::Commit;
use crate::line::{measure, put};
use crate::{Doing, Session, Step};
use pgn_base::{Command, Names, Tag};
use pgn_block::{Block, Effect, Kind};
use pgn_hub::{Hub, PassView};
use pgn_listening::ListenSet;
use pgn_model::Item;
use std::alloc::{AllocError, Global};
use std::sync::Wait;

// The command of the next line, and the line's number.
#[derive(Drop)]
pub(crate) struct NextCommand {
    pub(crate) line: u32,
    pub(crate) command: Command,
}

// A line with a command.
impl<P: PassView + Drop> Session<P> {
    /// Has the block answer a command.
    pub(crate) fn run<H: Hub<Pass = P>, R: Wait>(
        &mut self,
        rt: &R,
        alloc: Global,
        hub: &H,
        next: NextCommand,
    ) -> Result<Step, AllocError>
        requires own { H.is_pass hub.now self.old.pass }
        requires place { self.old.doing ≡ doing.Lines }
        requires rested { HasRest (H.shape hub.now) P.known self.old }
        requires comes { ComesWith self.old next.line (act.Run next.command) }
        requires read_first { HasReadFor (act.Run next.command) self.old.block.state (P.known self.old.pass) }
        requires counted { self.old.done < usize.MAX }
        ensures own { H.is_pass hub.now self.new.pass }
        ensures stepped { IfOk result (StepsBetween (H.shape hub.now) P.known self.old self.new) }
        ensures refused { OnErr result (StaysBetween (H.shape hub.now) P.known self.old self.new) }
    {
        let NextCommand { line, command } = next;
        let taken = take(alloc, &mut self.block, &self.set, &mut self.items, command)?;
        match answer(&mut self.items, line, taken) {
            Left::Nothing => {
                self.done += 1;
                Ok(Step::Did)
            }
            Left::Usage => {
                measure(rt, hub, &mut self.pass, &mut self.items, line);
                self.done += 1;
                Ok(Step::Did)
            }
            Left::Commit(commit) => self.commit(rt, hub, commit),
        }
    }

    /// Commits what the block has handed out. After a refusal it is kept for the next step.
    pub(crate) fn commit<H: Hub<Pass = P>, R: Wait>(
        &mut self,
        rt: &R,
        hub: &H,
        commit: Commit,
    ) -> Result<Step, AllocError>
        requires own { H.is_pass hub.now self.old.pass }
        requires place { self.old.doing ≡ doing.Lines }
        requires rested { RestsAt (H.shape hub.now) P.known self.old (committing commit) }
        ensures own { H.is_pass hub.now self.new.pass }
        ensures stepped { IfOk result (λ step. HasStepped (H.shape hub.now) P.known self.old (committing commit) self.new step) }
        ensures refused { OnErr result (HasRefused (H.shape hub.now) P.known self.old (committing commit) self.new) }
    {
        if self.make_room(commit.actions.as_slice().len()).is_err() {
            let Commit {
                actions,
                notes,
                tag,
            } = commit;
            self.doing.set(Doing::Committing {
                actions,
                notes,
                tag,
            });
            return Err(AllocError);
        }
        let line = self.next_number();
        self.carry_out(rt, hub, line, commit);
        self.done += 1;
        Ok(Step::Did)
    }

    // The number of the next line.
    fn next_number(&self) -> u32
        requires more { self.now.done < length self.now.section.lines }
        ensures number { (next : ScriptLine) (rest : List ScriptLine)
            → drop self.now.done self.now.section.lines ≡ next ∷ rest → result ≡ next.line }
        ensures counted { self.now.done < usize.MAX }
    {
        self.section.lines.as_slice()[self.done].line
    }

    // Makes room for the items of a commit, and in the set for as many channels as it has actions.
    fn make_room(&mut self, actions: usize) -> Result<(), AllocError>
        ensures same { self.new ≡ record self.old { items = self.new.items; set = self.new.set } }
        ensures items { self.new.items.items ≡ self.old.items.items }
        ensures channels { self.new.set.channels ≡ self.old.set.channels }
        ensures room { OnOk result (vec_len self.new.items + 5 ≤ vec_capacity self.new.items) }
        ensures set_room { OnOk result (actions ≤ self.new.set.room) }
    {
        self.items.reserve(5)?;
        self.set.reserve(actions)
    }
}

// What a command comes to, and the rows that it may ask for.
#[derive(Drop)]
struct Taken {
    effect: Effect,
    rows: Rows,
}

// Has the block take a command, with room for the items of its line. Where memory does not suffice, the block is as it was.
fn take(
    alloc: Global,
    block: &mut Block,
    set: &ListenSet,
    items: &mut Vec<Item>,
    command: Command,
) -> Result<Taken, AllocError>
    ensures taken { IfOk result (λ taken. HasTaken block.old command taken.effect block.new) }
    ensures names { IfOk result (λ taken. command ≡ Command.ListeningChannels
        → taken.rows.names ≡ set.now.channels) }
    ensures count { IfOk result (λ taken. taken.rows.count ≡ length taken.rows.names) }
    ensures unchanged { OnErr result (block.new ≡ block.old) }
    ensures items { items.new.items ≡ items.old.items }
    ensures room { OnOk result (vec_len items.new + 3 ≤ vec_capacity items.new) }
{
    if items.reserve(3).is_err() {
        drop(command);
        return Err(AllocError);
    }
    let Ok(rows) = rows_for(alloc, &command, set) else {
        drop(command);
        return Err(AllocError);
    };
    match block.step(command) {
        Ok(effect) => Ok(Taken { effect, rows }),
        Err(_) => {
            drop(rows);
            Err(AllocError)
        }
    }
}

// The channels that a command asks for, and how many they are.
#[derive(Drop)]
struct Rows {
    names: Names,
    count: u32,
}

// The rows that a command may ask for. More than a tag can count have no place in memory.
fn rows_for(alloc: Global, command: &Command, set: &ListenSet) -> Result<Rows, AllocError>
    ensures names { IfOk result (λ rows. command.now ≡ Command.ListeningChannels
        → rows.names ≡ set.now.channels) }
    ensures count { IfOk result (λ rows. rows.count ≡ length rows.names) }
{
    let Command::ListeningChannels = command else {
        return Ok(Rows {
            names: Names::new(alloc),
            count: 0,
        });
    };
    let names = set.names(alloc)?;
    let Ok(count) = u32::try_from(names.as_slice().len()) else {
        drop(names);
        return Err(AllocError);
    };
    Ok(Rows { names, count })
}

// What is left to do of a command, once the block has answered it.
#[derive(Drop)]
enum Left {
    Nothing,
    Usage,
    Commit(Commit),
}

// Records a line that the block and the set answer. Of another one nothing is recorded yet.
fn answer(items: &mut Vec<Item>, line: u32, taken: Taken) -> Left
    requires room { vec_len items.old + 3 ≤ vec_capacity items.old }
    requires count { taken.rows.count ≡ length taken.rows.names }
    ensures left { result ≡ left_of taken.effect }
    ensures shown { items.new.items ≡ answered_items items.old.items line taken.rows.names taken.effect }
    ensures room { result ≡ Left.Usage → vec_len items.new + 3 ≤ vec_capacity items.new }
{
    let Taken { effect, rows } = taken;
    match effect {
        Effect::Nothing => {
            drop(rows);
            put(items, Item::Line { line });
            Left::Nothing
        }
        Effect::Reply { tag, warning } => {
            drop(rows);
            show(items, line, Item::Reply { tag, warning });
            Left::Nothing
        }
        Effect::Refuse { refusal } => {
            drop(rows);
            show(items, line, Item::Refuse { refusal });
            Left::Nothing
        }
        Effect::Query {
            kind: Kind::ListeningChannels,
        } => {
            show_channels(items, line, rows);
            Left::Nothing
        }
        Effect::Query {
            kind: Kind::QueueUsage,
        } => {
            drop(rows);
            Left::Usage
        }
        Effect::Commit {
            actions,
            notes,
            tag,
        } => {
            drop(rows);
            Left::Commit(Commit {
                actions,
                notes,
                tag,
            })
        }
    }
}

// Records a line and its answer.
fn show(items: &mut Vec<Item>, line: u32, answer: Item)
    requires { vec_len items.old + 2 ≤ vec_capacity items.old }
    ensures { items.new.items ≡ items.old.items ++ Item.Line line ∷ [] ++ answer ∷ [] }
{
    put(items, Item::Line { line });
    put(items, answer);
}

// Records the channels that the session listens to.
fn show_channels(items: &mut Vec<Item>, line: u32, rows: Rows)
    requires { vec_len items.old + 3 ≤ vec_capacity items.old }
    ensures { items.new.items ≡ rows_items items.old.items line rows.names rows.count }
{
    let Rows { names, count } = rows;
    put(items, Item::Line { line });
    put(items, Item::Channels { names });
    let answer = Item::Reply {
        tag: Tag::Select(count),
        warning: None,
    };
    put(items, answer);
}
