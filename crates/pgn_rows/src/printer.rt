use itoa::Buffer;
use pgn_answers::BlockState;
use pgn_base::{Action, Actions, Command, Name, Needs, Note, Notes, Refusal, Tag, Warning, Which};
use pgn_block::{Effect, Kind};
use pgn_language::{Act, Scenario, ScenarioFault, ScriptLine, Section};

/// Puts these bytes behind a text. Where memory does not suffice they are missing, and the row comes out otherwise.
pub fn put(text: &mut Vec<u8>, bytes: &[u8]) {
    let _ = text.extend_from_slice(bytes);
}

/// Puts a number in decimal, behind these words.
pub fn put_number(text: &mut Vec<u8>, words: &[u8], number: u64) {
    let mut digits = Buffer::new();
    put(text, words);
    put(text, digits.format(number).as_bytes());
}

// Puts a name in double quotes, as it is, behind these words.
fn put_named(text: &mut Vec<u8>, words: &[u8], name: &Name) {
    put(text, words);
    put(text, b" \"");
    put(text, name.as_bytes());
    put(text, b"\"");
}

// The payload stands in single quotes.
fn put_note(text: &mut Vec<u8>, words: &[u8], note: &Note) {
    put_named(text, words, &note.channel);
    put(text, b", '");
    put(text, note.payload.as_bytes());
    put(text, b"'");
}

/// Puts what a line of SQL asks for.
pub fn put_command(text: &mut Vec<u8>, command: &Command) {
    put(text, command_text(command));
    match command {
        Command::Savepoint(name)
        | Command::RollbackTo(name)
        | Command::Release(name)
        | Command::Listen(name)
        | Command::Unlisten(name) => put_named(text, b"", name),
        Command::Notify(note) | Command::PgNotify(note) => put_note(text, b"", note),
        Command::Bad { at } => put_number(text, b"", u64::from(*at)),
        _ => {}
    }
}

fn command_text(command: &Command) -> &'static [u8] {
    match command {
        Command::Empty => b"nothing",
        Command::Begin => b"begin",
        Command::Start => b"start transaction",
        Command::Commit => b"commit",
        Command::Rollback => b"rollback",
        Command::Savepoint(_) => b"savepoint",
        Command::RollbackTo(_) => b"rollback to",
        Command::Release(_) => b"release",
        Command::Listen(_) => b"listen",
        Command::Unlisten(_) => b"unlisten",
        Command::UnlistenAll => b"unlisten all",
        Command::Notify(_) => b"notify",
        Command::PgNotify(_) => b"pg_notify",
        Command::ListeningChannels => b"listening channels",
        Command::QueueUsage => b"queue usage",
        Command::Invalid { which } => which_text(*which),
        Command::Bad { .. } => b"wrong at byte ",
    }
}

/// Puts why an input is no scenario.
pub fn put_fault(text: &mut Vec<u8>, fault: ScenarioFault) {
    match fault {
        ScenarioFault::LineTooLong { line }
        | ScenarioFault::NulByte { line }
        | ScenarioFault::BadMeta { line }
        | ScenarioFault::NoSession { line }
        | ScenarioFault::SameName { line }
        | ScenarioFault::TooMany { line }
        | ScenarioFault::NeverSignalled { line } => {
            put_number(text, b"line ", u64::from(line));
            put(text, b": ");
            put(text, fault_text(fault));
        }
        ScenarioFault::NotUtf8 { at } => put_number(text, fault_text(fault), u64::from(at)),
        ScenarioFault::TooLarge | ScenarioFault::Empty => put(text, fault_text(fault)),
    }
}

fn fault_text(fault: ScenarioFault) -> &'static [u8] {
    match fault {
        ScenarioFault::TooLarge => b"too large",
        ScenarioFault::LineTooLong { .. } => b"too long",
        ScenarioFault::NotUtf8 { .. } => b"not UTF-8 at byte ",
        ScenarioFault::NulByte { .. } => b"zero byte",
        ScenarioFault::BadMeta { .. } => b"bad meta line",
        ScenarioFault::NoSession { .. } => b"before the first section",
        ScenarioFault::SameName { .. } => b"name of an earlier section",
        ScenarioFault::TooMany { .. } => b"too many",
        ScenarioFault::Empty => b"no section",
        ScenarioFault::NeverSignalled { .. } => b"flag is never signalled",
    }
}

/// Puts the flags, and then each section with its lines.
pub fn put_sections(text: &mut Vec<u8>, scenario: &Scenario) {
    put(text, b"flags");
    for flag in scenario.flags.as_slice() {
        put_named(text, b"", flag);
    }
    for section in scenario.sections.as_slice() {
        put_section(text, section);
    }
}

fn put_section(text: &mut Vec<u8>, section: &Section) {
    put_number(text, b"\nsection ", u64::from(section.no.get()));
    put_named(text, b"", &section.name);
    put_number(text, b" database ", u64::from(section.db.get()));
    put_number(text, b" lines that notify ", u64::from(section.note_lines));
    for line in section.lines.as_slice() {
        put_script_line(text, line);
    }
}

// A flag is shown by its place among the flags, from 0.
fn put_script_line(text: &mut Vec<u8>, line: &ScriptLine) {
    put_number(text, b"\n", u64::from(line.line));
    put(text, b" ");
    put(text, line.text.as_bytes());
    put(text, b": ");
    match &line.act {
        Act::Run(command) => put_command(text, command),
        Act::Signal(flag) => put_number(text, b"signal flag ", u64::from(*flag)),
        Act::Await(flag) => put_number(text, b"await flag ", u64::from(*flag)),
        Act::Quit => put(text, b"quit"),
    }
}

/// Puts what a command comes to in a block.
pub fn put_effect(text: &mut Vec<u8>, effect: &Effect) {
    match effect {
        Effect::Nothing => put(text, b"nothing"),
        Effect::Reply { tag, warning } => {
            put(text, warning_text(*warning));
            put_tag(text, *tag);
        }
        Effect::Refuse { refusal } => put_refusal(text, refusal),
        Effect::Commit {
            actions,
            notes,
            tag,
        } => {
            put_handed_out(text, actions, notes);
            put_tag(text, *tag);
        }
        Effect::Query { kind } => match kind {
            Kind::ListeningChannels => put(text, b"the channels"),
            Kind::QueueUsage => put(text, b"the usage"),
        },
    }
}

fn put_tag(text: &mut Vec<u8>, tag: Tag) {
    put(text, tag_text(tag));
    if let Tag::Select(rows) = tag {
        put_number(text, b"", u64::from(rows));
    }
}

fn tag_text(tag: Tag) -> &'static [u8] {
    match tag {
        Tag::Begin => b"BEGIN",
        Tag::Start => b"START TRANSACTION",
        Tag::Commit => b"COMMIT",
        Tag::Rollback => b"ROLLBACK",
        Tag::Savepoint => b"SAVEPOINT",
        Tag::Release => b"RELEASE",
        Tag::Listen => b"LISTEN",
        Tag::Unlisten => b"UNLISTEN",
        Tag::Notify => b"NOTIFY",
        Tag::Select(_) => b"SELECT ",
    }
}

// What a commit hands out.
fn put_handed_out(text: &mut Vec<u8>, actions: &Actions, notes: &Notes) {
    put(text, b"commit");
    for action in actions.as_slice() {
        put_action(text, action);
    }
    for note in notes.as_slice() {
        put_note(text, b", notify", note);
    }
    put(text, b"; ");
}

fn put_action(text: &mut Vec<u8>, action: &Action) {
    match action {
        Action::Listen(name) => put_named(text, b", listen", name),
        Action::Unlisten(name) => put_named(text, b", unlisten", name),
        Action::UnlistenAll => put(text, b", unlisten all"),
    }
}

fn put_refusal(text: &mut Vec<u8>, refusal: &Refusal) {
    match refusal {
        Refusal::Syntax { at } => put_number(text, SYNTAX, u64::from(*at)),
        Refusal::Bounds { which } => {
            put(text, b"ERROR: 22023: ");
            put(text, which_text(*which));
        }
        Refusal::NeedsBlock { what } => put(text, needs_text(*what)),
        Refusal::NoSavepoint { name } => {
            put_named(text, b"ERROR: 3B001: savepoint", name);
            put(text, b" does not exist");
        }
        Refusal::Aborted => put(text, ABORTED),
        Refusal::QueueFull => put(text, FULL),
    }
}

const SYNTAX: &[u8] = b"ERROR: 42601: syntax error at byte ";

const ABORTED: &[u8] =
    b"ERROR: 25P02: current transaction is aborted, commands ignored until end of transaction block";

const FULL: &[u8] = b"ERROR: 54000: too many notifications in the NOTIFY queue";

/// A block's state.
pub fn state_text(state: BlockState) -> &'static [u8] {
    match state {
        BlockState::Idle => b"no block",
        BlockState::InBlock => b"block",
        BlockState::Failed => b"failed block",
    }
}

fn warning_text(warning: Option<Warning>) -> &'static [u8] {
    match warning {
        Some(Warning::AlreadyInBlock) => {
            b"WARNING: 25001: there is already a transaction in progress; "
        }
        Some(Warning::NotInBlock) => b"WARNING: 25P01: there is no transaction in progress; ",
        None => b"",
    }
}

fn which_text(which: Which) -> &'static [u8] {
    match which {
        Which::ChannelEmpty => b"channel name cannot be empty",
        Which::ChannelTooLong => b"channel name too long",
        Which::PayloadTooLong => b"payload string too long",
    }
}

fn needs_text(needs: Needs) -> &'static [u8] {
    match needs {
        Needs::Savepoint => b"ERROR: 25P01: SAVEPOINT can only be used in transaction blocks",
        Needs::RollbackTo => {
            b"ERROR: 25P01: ROLLBACK TO SAVEPOINT can only be used in transaction blocks"
        }
        Needs::Release => {
            b"ERROR: 25P01: RELEASE SAVEPOINT can only be used in transaction blocks"
        }
    }
}
