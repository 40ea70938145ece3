ghost use Rattle.std.specs.Prelude.{All};
ghost use Rattle.pgn_check.specs.Laws.{IsHeldAct, IsHeldCommand};

use pgn_base::Command;
use pgn_language::{Act, ScriptLine, Section};

/// Each act of a scenario is one that its type holds. It is called for what it says: a slice by itself tells nothing of its items.
pub fn are_held(sections: &[Section])
    ensures { All (λ section. All (λ line. IsHeldAct line.act) section.lines) sections.now }
{
    for section in sections {
        lines_are_held(section.lines.as_slice());
    }
}

// The same of the lines of a script.
fn lines_are_held(lines: &[ScriptLine])
    ensures { All (λ line. IsHeldAct line.act) lines.now }
{
    for line in lines {
        act_is_held(&line.act);
    }
}

// The same of an act.
fn act_is_held(act: &Act)
    ensures { IsHeldAct act.now }
{
    if let Act::Run(command) = act {
        command_is_held(command);
    }
}

// The same of a command.
fn command_is_held(command: &Command)
    ensures { IsHeldCommand command.now }
{
    match command {
        Command::Savepoint(name)
        | Command::RollbackTo(name)
        | Command::Release(name)
        | Command::Listen(name)
        | Command::Unlisten(name) => {
            let _name = name.as_bytes();
        }
        Command::Notify(note) | Command::PgNotify(note) => {
            let _channel = note.channel.as_bytes();
            let _payload = note.payload.as_bytes();
        }
        Command::Bad { at } => {
            let _at = *at;
        }
        _ => {}
    }
}
