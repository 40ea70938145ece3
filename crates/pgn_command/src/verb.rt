ghost use Rattle.std.specs.Prelude.{◌≡◌};
ghost use Rattle.std.specs.Str.{str_eq_ignore_ascii_case};
ghost use Rattle.pgn_command.specs.Reading.{verb_of};

/// The word that a command begins with.
#[derive(Clone, Copy)]
pub enum Verb {
    Begin,
    Start,
    Commit,
    Rollback,
    Abort,
    Savepoint,
    Release,
    Listen,
    Unlisten,
    Notify,
    Select,
}

/// The command word that a word is. END is another word for COMMIT.
pub fn verb_of(word: &str) -> Option<Verb>
    ensures { result ≡ verb_of word.now }
{
    if is_word(word, "begin") {
        return Some(Verb::Begin);
    }
    if is_word(word, "start") {
        return Some(Verb::Start);
    }
    if is_word(word, "commit") {
        return Some(Verb::Commit);
    }
    if is_word(word, "end") {
        return Some(Verb::Commit);
    }
    if is_word(word, "rollback") {
        return Some(Verb::Rollback);
    }
    if is_word(word, "abort") {
        return Some(Verb::Abort);
    }
    if is_word(word, "savepoint") {
        return Some(Verb::Savepoint);
    }
    if is_word(word, "release") {
        return Some(Verb::Release);
    }
    if is_word(word, "listen") {
        return Some(Verb::Listen);
    }
    if is_word(word, "unlisten") {
        return Some(Verb::Unlisten);
    }
    if is_word(word, "notify") {
        return Some(Verb::Notify);
    }
    if is_word(word, "select") {
        return Some(Verb::Select);
    }
    None
}

/// A word is this one, without regard to ASCII case.
pub fn is_word(text: &str, word: &str) -> bool
    ensures { result ≡ str_eq_ignore_ascii_case word.now text.now }
{
    word.eq_ignore_ascii_case(text)
}
