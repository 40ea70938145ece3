ghost use Rattle.std.specs.Prelude.{◌≡◌};
ghost use Rattle.pgn_language.specs.Lines.{trimmed};

use crate::bytes::blanks_after;
use pgn_command::blanks;

/// The text of a line: the line without the blanks at both ends.
pub fn trimmed(line: &str) -> &str
    ensures { result.now ≡ trimmed line.now }
{
    let start = blanks(line.as_bytes());
    let text = &line[start..];
    let end = blanks_after(text.as_bytes());
    &text[..end]
}
