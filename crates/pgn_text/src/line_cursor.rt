ghost use Rattle.std.specs.Prelude.{◌≡◌, List};
ghost use Rattle.pgn_language.specs.declared.scenario.ScriptLine.{ScriptLine};
ghost use Rattle.pgn_model.specs.Text.{line_text};
ghost use Rattle.pgn_text.specs.Rendering.{HasPassed};

use pgn_language::ScriptLine;

/// A place in a section's lines, and the largest line number before it. Numbers that rise are found in one pass over the lines.
#[derive(Drop)]
pub struct LineCursor {
    next: usize,
    largest: u32,
}

// The text of the first line of this number.
#[tactic(auto, using(crate::proofs::LineLaws::line_laws))]
fn line_of(lines: &[ScriptLine], n: u32) -> &[u8]
    ensures { result.now ≡ line_text n lines.now }
{
    for line in lines {
        if line.line == n {
            return line.text.as_bytes();
        }
    }
    &[]
}

impl LineCursor {
    /// The place before the first line.
    pub fn new() -> Self
        ensures { (lines : List ScriptLine) → HasPassed lines result }
    {
        LineCursor {
            next: 0,
            largest: 0,
        }
    }

    /// The text of the first line of this number.
    #[tactic(auto, using(crate::proofs::LineLaws::line_laws))]
    pub fn find<'a>(&mut self, lines: &'a [ScriptLine], n: u32) -> &'a [u8]
        requires { HasPassed lines.now self.old }
        ensures text { result.now ≡ line_text n lines.now }
        ensures passed { HasPassed lines.now self.new }
    {
        if n <= self.largest {
            return line_of(lines, n);
        }
        while self.next < lines.len() {
            let line = &lines[self.next];
            self.next += 1;
            self.largest = self.largest.max(line.line);
            if line.line == n {
                return line.text.as_bytes();
            }
        }
        &[]
    }
}
