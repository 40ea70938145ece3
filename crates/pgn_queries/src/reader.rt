ghost use Rattle.std.specs.Prelude.{◌≡◌, ◌<◌, ◌≤◌, [], Err, Some, IfOk, IfSome, OnErr, OnOk};
ghost use Rattle.pgn_base.specs.Outside.{Rose};
ghost use Rattle.pgn_base.specs.declared.limits.TheConstants.{LINE_BYTES_MAX};
ghost use Rattle.pgn_language.specs.Inputs.{IsOneLine, is_note_act};
ghost use Rattle.pgn_queries.specs.declared.wire_fault.WireFault.{WireFault};
ghost use Rattle.pgn_queries.specs.Client.{IsQueryText, OfKnown};
ghost use Rattle.pgn_queries.specs.Queries.{AreTooMany, Gives, HasPassed, IsLineOf, QueriesAre, TookQuery, after_query, first_place};

use crate::WireFault;
use crate::coming::Coming;
use crate::limits::QUERIES_MAX;
use crate::message::{Unread, next_message};
use memchr::memchr;
use pgn_base::{Command, Source};
use pgn_command::parse_line;
use pgn_language::{Act, LineText, ScriptLine};
use std::alloc::{AllocError, Global};
use std::marker::Model;
use std::str;

/// Why no query came.
#[derive(Clone, Copy)]
pub enum NoQuery {
    Fault(WireFault),
    /// The source failed.
    Failed,
    Memory,
}

/// The queries of a client, one at a time. It keeps the memory of the longest text so far, and reads no byte ahead, so that a client
/// that waits for an answer is not waited for. Contracts see where it stands. After an error it is of no more use.
#[derive(Drop)]
pub struct Queries {
    at: u64,
    queries: u32,
    notes: u32,
    most: u32,
    text: Vec<u8>,
}

impl Model for Queries {
    ghost use Rattle.pgn_queries.specs.Queries.{IsPlace, Place};

    ghost Value = { Place };

    ghost view = { λ q. record { at = q.at; queries = q.queries; notes = q.notes; most = q.most } };

    ghost invariant = { λ q. IsPlace (record { at = q.at; queries = q.queries; notes = q.notes; most = q.most }) };
}

impl Queries {
    /// Before the first byte of a client of which at most so many queries may notify. It takes no memory.
    pub fn new(alloc: Global, most: u32) -> Queries
        ensures { result ≡ first_place most }
    {
        Queries {
            at: 0,
            queries: 0,
            notes: 0,
            most,
            text: Vec::new(alloc),
        }
    }

    /// The next query, as a line of a script: the lines are numbered from 1. There is none after a Terminate, and where the source ends
    /// between two messages. Not a byte behind a query is read before the next call.
    #[tactic(auto, using(crate::proofs::QueryLaws::gives_laws))]
    pub fn next<S: Source>(
        &mut self,
        alloc: Global,
        source: &mut S,
    ) -> Result<Option<ScriptLine>, NoQuery>
        ensures next { IfOk result (λ next. OfKnown (Gives self.old self.new next) (S.left source.old) (S.left source.new)) }
        ensures passed { IfOk result (λ next. IfSome next (HasPassed self.old self.new)) }
        // What it took of the source is that query's message.
        ensures took { IfOk result (λ next. IfSome next (λ line. OfKnown (TookQuery self.old self.new line) (S.left source.old) (S.left source.new))) }
        // Where it gives no query, it stands where it stood.
        ensures ended { result ≡ Ok None → self.new ≡ self.old }
        ensures stays { OnErr result (self.new ≡ self.old) }
        ensures fault { (fault : WireFault) → result ≡ Err (NoQuery.Fault fault) → IfSome (S.left source.old) (λ bytes. QueriesAre self.old bytes [] (Some fault)) }
        ensures later { S.faults source.old ≤ S.faults source.new }
        ensures failed { result ≡ Err NoQuery.Failed → Rose (S.faults source.old) (S.faults source.new) }
        ensures rose { S.faults source.old < S.faults source.new → result ≡ Err NoQuery.Failed }
    {
        match next_message(source, self.at, &mut self.text) {
            Ok(Coming::End) => return Ok(None),
            Ok(Coming::Query) => {}
            Ok(Coming::Fault(fault)) => return Err(NoQuery::Fault(fault)),
            Err(Unread::Failed) => return Err(NoQuery::Failed),
            Err(Unread::Memory) => return Err(NoQuery::Memory),
        }
        let size = self.text.len();
        let Ok(line) = line_of(alloc, self.queries + 1, self.text.as_slice()) else {
            return Err(NoQuery::Memory);
        };
        match self.count(size, &line.act) {
            Ok(()) => Ok(Some(line)),
            Err(fault) => {
                drop(line);
                Err(NoQuery::Fault(fault))
            }
        }
    }

    // Passes a query with a text of so many bytes, unless there are too many with it.
    fn count(&mut self, size: usize, act: &Act) -> Result<(), WireFault>
        requires { size ≤ LINE_BYTES_MAX }
        ensures passed { OnOk result (self.new ≡ after_query self.old size act.now) }
        ensures few { OnOk result (AreTooMany (after_query self.old size act.now) → ⊥) }
        ensures many { OnErr result (AreTooMany (after_query self.old size act.now)) }
        ensures stays { OnErr result (self.new ≡ self.old) }
        ensures fault { OnErr result (result ≡ Err (WireFault.TooMany self.old.at)) }
    {
        let notes = self.notes + u32::from(is_note(act));
        if self.queries == QUERIES_MAX || notes > self.most {
            return Err(WireFault::TooMany { at: self.at });
        }
        self.at += size as u64 + 6;
        self.queries += 1;
        self.notes = notes;
        Ok(())
    }
}

// Whether a line notifies.
fn is_note(act: &Act) -> bool
    ensures { result ≡ is_note_act act.now }
{
    matches!(act, Act::Run(Command::Notify(_) | Command::PgNotify(_)))
}

// The line of a query with this number and this text.
#[tactic(auto, using(crate::proofs::QueryLaws::line_laws))]
fn line_of(alloc: Global, line: u32, text: &[u8]) -> Result<ScriptLine, AllocError>
    requires { IsQueryText text.now }
    ensures { IfOk result (IsLineOf line text.now) }
{
    let Some(at) = memchr(b'\n', text) else {
        return one_line(alloc, line, text);
    };
    let none = LineText::new(alloc, "")?;
    Ok(ScriptLine {
        line,
        text: none,
        act: Act::Run(Command::Bad { at: at as u32 }),
    })
}

// The line of a text without an LF.
#[tactic(auto, using(crate::proofs::QueryLaws::line_laws))]
fn one_line(alloc: Global, line: u32, text: &[u8]) -> Result<ScriptLine, AllocError>
    requires sound { IsQueryText text.now }
    requires one { IsOneLine text.now }
    ensures { IfOk result (IsLineOf line text.now) }
{
    let Ok(text) = str::from_utf8(text) else {
        unreachable!()
    };
    let kept = LineText::new(alloc, text)?;
    let command = parse_line(alloc, text)?;
    Ok(ScriptLine {
        line,
        text: kept,
        act: Act::Run(command),
    })
}
