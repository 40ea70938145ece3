ghost use Rattle.std.specs.Prelude.{◌≡◌, ◌≢◌, ◌+◌, ◌<◌, ◌≤◌, [], ◌∷◌, length, OnOk, OnErr};
ghost use Rattle.pgn_hub.specs.Shape.{Shape};
ghost use Rattle.pgn_language.specs.Inputs.{note_lines_of};
ghost use Rattle.pgn_language.specs.declared.scenario.Act.TheVariants as act;
ghost use Rattle.pgn_session.specs.declared.doing.Doing.TheVariants as doing;
ghost use Rattle.pgn_session.specs.Feed.{EndsByQuit, fed};
ghost use Rattle.pgn_session.specs.Whole.{HasRest};

use crate::Session;
use pgn_hub::PassView;
use pgn_language::ScriptLine;
use std::alloc::AllocError;

// A script may grow while its session runs, as long as its last line is a `\quit` that is still to come. So a line is to come wherever the
// session has read, and no read was in an open block.
impl<P: PassView + Drop> Session<P> {
    /// Puts a line into the script, before the `\quit` that ends it. The session's notifications were counted as it began: a line that
    /// notifies has to be one of `note_lines`. The error is that memory did not suffice; nothing has changed then.
    pub fn feed(&mut self, line: ScriptLine) -> Result<(), AllocError>
        requires quits { EndsByQuit self.old.section.lines }
        requires before_last { self.old.done < length self.old.section.lines }
        requires place { self.old.doing ≡ doing.Lines }
        requires goes_on { line.act ≢ act.Quit }
        requires few { note_lines_of (line ∷ []) + note_lines_of self.old.section.lines
            ≤ self.old.section.note_lines }
        ensures fed { OnOk result (self.new ≡ record self.old { section = fed self.old.section line }) }
        ensures unchanged { OnErr result (self.new ≡ self.old) }
        ensures rested { (shape : Shape) → HasRest shape P.known self.old → OnOk result (HasRest shape P.known self.new) }
    {
        let last = self.section.lines.as_slice().len() - 1;
        self.section.lines.insert(last, line)?;
        Ok(())
    }
}
