//! What was counted of what a seat was asked.
ghost use Rattle.std.specs.Prelude.{◌≡◌, ◌+◌, ◌≤◌, length, IfNone, IfSome, IsFalse, IsTrue, OnSome};
ghost use Rattle.pgn_language.specs.Inputs.{is_note_command, note_lines_of};
ghost use Rattle.pgn_messages.specs.Asks.{lines_for};
ghost use Rattle.pgn_frames.specs.Callers.{behind_end};
ghost use Rattle.pgn_frames.specs.Clients.{AreTooMany, after_ask, first_tally};

use pgn_base::Command;
use pgn_messages::Ask;
use pgn_queries::QUERIES_MAX;
use std::marker::Model;

// The lines of a seat's script so far, how many of them notify, and how many may. Contracts see it as a tally.
#[derive(Drop)]
pub(crate) struct Counts {
    lines: u32,
    notes: u32,
    most: u32,
}

impl Model for Counts {
    ghost use Rattle.std.specs.Prelude.{◌≤◌};
    ghost use Rattle.pgn_queries.specs.declared.limits.TheConstants.{QUERIES_MAX};
    ghost use Rattle.pgn_frames.specs.Clients.{Tally};

    ghost Value = { Tally };

    ghost view = { λ c. record { lines = c.lines; notes = c.notes; most = c.most } };

    ghost invariant = { λ c. c.lines ≤ QUERIES_MAX };
}

impl Counts {
    // Before the first line, where so many may notify.
    pub(crate) fn new(most: u32) -> Counts
        ensures { result ≡ first_tally most }
    {
        Counts {
            lines: 0,
            notes: 0,
            most,
        }
    }

    // The number that the next line gets.
    pub(crate) fn next_line(&self) -> u32
        ensures { result ≡ self.now.lines + 1 }
    {
        self.lines + 1
    }

    // Counts what is asked, unless there are too many lines with it, or too many that notify: then it answers false.
    pub(crate) fn count(&mut self, ask: &Ask) -> bool
        ensures next { IsTrue result → self.new ≡ after_ask self.old ask.now }
        ensures few { IsTrue result → AreTooMany (after_ask self.old ask.now) → ⊥ }
        ensures many { IsFalse result → AreTooMany (after_ask self.old ask.now) }
        ensures stays { IsFalse result → self.new ≡ self.old }
    {
        let lines = u64::from(self.lines) + lines_in(ask);
        let notes = u64::from(self.notes) + notes_in(ask);
        if lines > u64::from(QUERIES_MAX) || notes > u64::from(self.most) {
            return false;
        }
        self.lines = lines as u32;
        self.notes = notes as u32;
        true
    }

    // Goes on to the next client, behind the two lines that set the seat back, and answers the number of the first of them; there is none,
    // and nothing has changed, where they would be greater than a line of a query may have.
    pub(crate) fn next_client(&mut self) -> Option<u32>
        ensures line { IfSome result (λ line. line ≡ self.old.lines + 1) }
        ensures next { OnSome result (self.new ≡ behind_end self.old) }
        ensures stays { IfNone result (self.new ≡ self.old) }
    {
        if self.lines > QUERIES_MAX - 2 {
            return None;
        }
        let line = self.lines + 1;
        self.lines += 2;
        Some(line)
    }
}

// How many lines of the script what is asked has.
fn lines_in(ask: &Ask) -> u64
    ensures lines { result ≡ length (lines_for ask.now) }
    ensures few { result ≤ 2 }
{
    match ask {
        Ask::Query(_) => 1,
        Ask::Settle(_) => 0,
        Ask::Discard { .. } | Ask::End { .. } => 2,
    }
}

// How many of them notify.
fn notes_in(ask: &Ask) -> u64
    ensures notes { result ≡ note_lines_of (lines_for ask.now) }
    ensures few { result ≤ 1 }
{
    match ask {
        Ask::Query(query) => u64::from(is_note(&query.command)),
        Ask::Settle(_) | Ask::Discard { .. } | Ask::End { .. } => 0,
    }
}

// Whether a command notifies.
fn is_note(command: &Command) -> bool
    ensures { result ≡ is_note_command command.now }
{
    matches!(command, Command::Notify(_) | Command::PgNotify(_))
}
