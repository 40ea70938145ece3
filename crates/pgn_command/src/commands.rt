ghost use Rattle.std.specs.Prelude.{◌≡◌, IfOk};
ghost use Rattle.pgn_base.specs.declared.command.Command.TheVariants as command;
ghost use Rattle.pgn_language.specs.Grammar.{limited, past_limit};
ghost use Rattle.pgn_language.specs.laws.Commands.{IsValid};
ghost use Rattle.pgn_command.specs.Reading.{noted};
ghost use Rattle.pgn_command.specs.Statements.{ident_name, text_bytes, meant, with_name};
ghost use Rattle.pgn_base.specs.Texts.{IsName};

use crate::statement::{Ident, Statement, Text};
use crate::texts::{channel_of, name_of, payload_of, text_len};
use pgn_base::{Command, NAME_BYTES_MAX, Name, Note, PAYLOAD_BYTES_MAX, Which};
use std::alloc::{AllocError, Global};

/// The command that a statement is, or which limit it goes past.
pub fn command_of(alloc: Global, statement: Statement<'_>) -> Result<Command, AllocError>
    requires { IsValid (limited (meant statement)) }
    ensures { IfOk result (λ command. command ≡ limited (meant statement.entry)) }
{
    match statement {
        Statement::Empty => Ok(Command::Empty),
        Statement::Begin => Ok(Command::Begin),
        Statement::Start => Ok(Command::Start),
        Statement::Commit => Ok(Command::Commit),
        Statement::Rollback => Ok(Command::Rollback),
        Statement::Savepoint(name)
        | Statement::RollbackTo(name)
        | Statement::Release(name)
        | Statement::Listen(name)
        | Statement::Unlisten(name) => named(alloc, statement, name),
        Statement::UnlistenAll => Ok(Command::UnlistenAll),
        Statement::Notify(channel, payload) => notify(alloc, channel, payload),
        Statement::PgNotify(channel, payload) => pg_notify(alloc, channel, payload),
        Statement::ListeningChannels => Ok(Command::ListeningChannels),
        Statement::QueueUsage => Ok(Command::QueueUsage),
    }
}

// The command of a statement that has this name and nothing else.
fn named(alloc: Global, statement: Statement<'_>, name: Ident<'_>) -> Result<Command, AllocError>
    requires { IsName (ident_name name) }
    ensures { IfOk result (λ command. command ≡ with_name statement.entry (ident_name name.entry)) }
{
    let name = name_of(alloc, name)?;
    Ok(with_name(statement, name))
}

// The command of this kind with another name.
fn with_name(statement: Statement<'_>, name: Name) -> Command
    ensures { result ≡ with_name statement.entry name }
{
    match statement {
        Statement::Savepoint(_) => Command::Savepoint(name),
        Statement::RollbackTo(_) => Command::RollbackTo(name),
        Statement::Release(_) => Command::Release(name),
        Statement::Listen(_) => Command::Listen(name),
        _ => Command::Unlisten(name),
    }
}

// NOTIFY of a channel, which is a name and so never too long.
fn notify(alloc: Global, channel: Ident<'_>, payload: Text<'_>) -> Result<Command, AllocError>
    requires { IsValid (limited (command.Notify (noted (ident_name channel) (text_bytes payload)))) }
    ensures { IfOk result (λ one. one ≡ limited (command.Notify (noted (ident_name channel.entry) (text_bytes payload.entry)))) }
{
    if text_len(payload) > PAYLOAD_BYTES_MAX {
        return Ok(Command::Invalid {
            which: Which::PayloadTooLong,
        });
    }
    let channel = name_of(alloc, channel)?;
    let payload = payload_of(alloc, payload)?;
    Ok(Command::Notify(Note { channel, payload }))
}

/// The command that a call of pg_notify with these two texts is, or which limit it goes past.
pub fn pg_notify(alloc: Global, channel: Text<'_>, payload: Text<'_>) -> Result<Command, AllocError>
    requires { IsValid (limited (command.PgNotify (noted (text_bytes channel) (text_bytes payload)))) }
    ensures { IfOk result (λ one. one ≡ limited (command.PgNotify (noted (text_bytes channel.entry) (text_bytes payload.entry)))) }
{
    if let Some(which) = past_limit(channel, payload) {
        return Ok(Command::Invalid { which });
    }
    let channel = channel_of(alloc, channel)?;
    let payload = payload_of(alloc, payload)?;
    Ok(Command::PgNotify(Note { channel, payload }))
}

// Which limit a call of pg_notify goes past, the channel's before the payload's. Nothing is built for it.
fn past_limit(channel: Text<'_>, payload: Text<'_>) -> Option<Which>
    ensures { result ≡ past_limit (noted (text_bytes channel.entry) (text_bytes payload.entry)) }
{
    let length = text_len(channel);
    if length == 0 {
        return Some(Which::ChannelEmpty);
    }
    if length > NAME_BYTES_MAX {
        return Some(Which::ChannelTooLong);
    }
    if text_len(payload) > PAYLOAD_BYTES_MAX {
        return Some(Which::PayloadTooLong);
    }
    None
}
