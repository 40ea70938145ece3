ghost use Rattle.std.specs.Prelude.{◌≡◌, codes, MatchResult};
ghost use Rattle.pgn_language.specs.Grammar.{Key, fits_slot};
ghost use Rattle.pgn_command.specs.Reading as told;
ghost use Rattle.pgn_command.specs.Statements.{Gives, GivesText, IsNamed, IsUnnamed, meant, ident_lexeme};
ghost use Rattle.pgn_command.specs.declared.verb.Verb.TheVariants as verb;

use crate::Enclosed;
use crate::parser::Parser;
use crate::statement::{Ident, Statement, Stop, Text};
use crate::verb::{Verb, is_word};

impl<'a> Parser<'a> {
    /// The statement that the tokens ahead are, to the end of the line, or where they go wrong.
    pub fn statement(&mut self) -> Result<Statement<'a>, Stop>
        ensures { Gives result (told.stated self.old.end self.old.tokens) }
    {
        let Some(verb) = self.verb() else {
            return self.close(Statement::Empty);
        };
        self.advance();
        match verb {
            Verb::Begin => self.close_work(Statement::Begin),
            Verb::Start => self.start(),
            Verb::Commit => self.close_work(Statement::Commit),
            Verb::Rollback => self.rollback(),
            Verb::Abort => self.close_work(Statement::Rollback),
            Verb::Savepoint => self.savepoint(),
            Verb::Release => self.release(),
            Verb::Listen => self.listen(),
            Verb::Unlisten => self.unlisten(),
            Verb::Notify => self.notify(),
            Verb::Select => self.select(),
        }
    }

    // The end of a statement: one `;` may stand there, and nothing else.
    fn close(&mut self, statement: Statement<'a>) -> Result<Statement<'a>, Stop>
        ensures { Gives result (told.closing self.old.end (meant statement.entry) self.old.tokens) }
    {
        self.takes_sign(b';');
        if self.is_end() {
            Ok(statement)
        } else {
            Err(self.stop())
        }
    }

    // The end of a statement in which WORK or TRANSACTION may stand before it.
    fn close_work(&mut self, statement: Statement<'a>) -> Result<Statement<'a>, Stop>
        ensures { Gives result (told.closing self.old.end (meant statement.entry) (told.past_work self.old.tokens)) }
    {
        self.skip_work();
        self.close(statement)
    }

    fn skip_work(&mut self)
        ensures tokens { self.new.tokens ≡ told.past_work self.old.tokens }
        ensures same_end { self.new.end ≡ self.old.end }
    {
        if !self.takes_word("work") {
            self.takes_word("transaction");
        }
    }

    fn start(&mut self) -> Result<Statement<'a>, Stop>
        ensures { Gives result (told.beginning self.old.end verb.Start self.old.tokens) }
    {
        if !self.takes_word("transaction") {
            return Err(self.stop());
        }
        self.close(Statement::Start)
    }

    fn rollback(&mut self) -> Result<Statement<'a>, Stop>
        ensures { Gives result (told.beginning self.old.end verb.Rollback self.old.tokens) }
    {
        self.skip_work();
        if !self.takes_word("to") {
            return self.close(Statement::Rollback);
        }
        match self.savepoint_name() {
            Ok(name) => self.close(Statement::RollbackTo(name)),
            Err(stop) => Err(stop),
        }
    }

    fn savepoint(&mut self) -> Result<Statement<'a>, Stop>
        ensures { Gives result (told.beginning self.old.end verb.Savepoint self.old.tokens) }
    {
        match self.name() {
            Ok(name) => self.close(Statement::Savepoint(name)),
            Err(stop) => Err(stop),
        }
    }

    fn release(&mut self) -> Result<Statement<'a>, Stop>
        ensures { Gives result (told.beginning self.old.end verb.Release self.old.tokens) }
    {
        match self.savepoint_name() {
            Ok(name) => self.close(Statement::Release(name)),
            Err(stop) => Err(stop),
        }
    }

    fn listen(&mut self) -> Result<Statement<'a>, Stop>
        ensures { Gives result (told.beginning self.old.end verb.Listen self.old.tokens) }
    {
        match self.name() {
            Ok(name) => self.close(Statement::Listen(name)),
            Err(stop) => Err(stop),
        }
    }

    fn unlisten(&mut self) -> Result<Statement<'a>, Stop>
        ensures { Gives result (told.beginning self.old.end verb.Unlisten self.old.tokens) }
    {
        if self.takes_sign(b'*') {
            return self.close(Statement::UnlistenAll);
        }
        match self.name() {
            Ok(name) => self.close(Statement::Unlisten(name)),
            Err(stop) => Err(stop),
        }
    }

    fn notify(&mut self) -> Result<Statement<'a>, Stop>
        ensures { Gives result (told.beginning self.old.end verb.Notify self.old.tokens) }
    {
        let Some(channel) = self.takes_name() else {
            return Err(self.stop());
        };
        match self.payload() {
            Ok(payload) => self.close(Statement::Notify(channel, payload)),
            Err(stop) => Err(stop),
        }
    }

    // A comma and a literal, or nothing.
    fn payload(&mut self) -> Result<Text<'a>, Stop>
        ensures { GivesText result self.old.end self.new (told.paying self.old.end self.old.tokens) }
    {
        if !self.takes_sign(b',') {
            return Ok(Text::Null);
        }
        match self.takes_literal() {
            Some(inside) => Ok(Text::Literal(inside)),
            None => Err(self.stop()),
        }
    }

    fn select(&mut self) -> Result<Statement<'a>, Stop>
        ensures { Gives result (told.beginning self.old.end verb.Select self.old.tokens) }
    {
        if self.takes_word("pg_notify") {
            return self.pg_notify();
        }
        if self.takes_word("pg_listening_channels") {
            return self.call(Statement::ListeningChannels);
        }
        if self.takes_word("pg_notification_queue_usage") {
            return self.call(Statement::QueueUsage);
        }
        Err(self.stop())
    }

    // A call without arguments.
    fn call(&mut self, statement: Statement<'a>) -> Result<Statement<'a>, Stop>
        ensures { Gives result (told.asking self.old.end (meant statement.entry) self.old.tokens) }
    {
        if self.takes_sign(b'(') && self.takes_sign(b')') {
            self.close(statement)
        } else {
            Err(self.stop())
        }
    }

    fn pg_notify(&mut self) -> Result<Statement<'a>, Stop>
        ensures { Gives result (told.calling self.old.end self.old.tokens) }
    {
        if !self.takes_sign(b'(') {
            return Err(self.stop());
        }
        let channel = match self.argument() {
            Ok(channel) => channel,
            Err(stop) => return Err(stop),
        };
        if !self.takes_sign(b',') {
            return Err(self.stop());
        }
        let payload = match self.argument() {
            Ok(payload) => payload,
            Err(stop) => return Err(stop),
        };
        if !self.takes_sign(b')') {
            return Err(self.stop());
        }
        self.close(Statement::PgNotify(channel, payload))
    }

    // A literal, NULL, or a call of `repeat`.
    fn argument(&mut self) -> Result<Text<'a>, Stop>
        ensures { GivesText result self.old.end self.new (told.arguing self.old.end self.old.tokens) }
    {
        if let Some(inside) = self.takes_literal() {
            return Ok(Text::Literal(inside));
        }
        if self.takes_word("null") {
            return Ok(Text::Null);
        }
        if self.takes_word("repeat") {
            return self.repeat();
        }
        Err(self.stop())
    }

    // What follows the word `repeat`.
    fn repeat(&mut self) -> Result<Text<'a>, Stop>
        ensures { GivesText result self.old.end self.new (told.repeating self.old.end self.old.tokens) }
    {
        if !self.takes_sign(b'(') {
            return Err(self.stop());
        }
        let Some(inside) = self.takes_literal() else {
            return Err(self.stop());
        };
        if !self.takes_sign(b',') {
            return Err(self.stop());
        }
        let Some(count) = self.takes_count() else {
            return Err(self.stop());
        };
        if !self.takes_sign(b')') {
            return Err(self.stop());
        }
        Ok(Text::Repeat(inside, count))
    }

    // The name of a savepoint. The word SAVEPOINT may stand before it, and is itself the name where none follows.
    fn savepoint_name(&mut self) -> Result<Ident<'a>, Stop>
        ensures { MatchResult result (λ ident. IsNamed (told.past_savepoint self.old.tokens) self.old.end self.new ident) (λ stop. IsUnnamed (told.past_savepoint self.old.tokens) self.old.end stop) }
    {
        match self.name() {
            Ok(first) if is_savepoint(first) => match self.takes_name() {
                Some(name) => Ok(name),
                None => Ok(first),
            },
            named => named,
        }
    }

    fn name(&mut self) -> Result<Ident<'a>, Stop>
        ensures { MatchResult result (λ ident. IsNamed self.old.tokens self.old.end self.new ident) (λ stop. IsUnnamed self.old.tokens self.old.end stop) }
    {
        match self.takes_name() {
            Some(name) => Ok(name),
            None => Err(self.stop()),
        }
    }
}

// A name is the word SAVEPOINT.
fn is_savepoint(name: Ident<'_>) -> bool
    ensures { result ≡ fits_slot (Key (codes "savepoint")) (ident_lexeme name.entry) }
{
    match name {
        Ident::Word(word) => is_word(word, "savepoint"),
        Ident::Quoted(_) => false,
    }
}
