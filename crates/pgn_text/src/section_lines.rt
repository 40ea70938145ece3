ghost use Rattle.std.specs.Prelude.{◌≡◌};
ghost use Rattle.pgn_text.specs.Rendering.{lines_of};

use pgn_language::{ScriptLine, Section};

/// The script lines of the first section of this number; none where there is no such section.
pub fn lines_of(sections: &[Section], number: u32) -> &[ScriptLine]
    ensures { result.now ≡ lines_of number sections.now }
{
    for section in sections {
        if section.no.get() == number {
            return section.lines.as_slice();
        }
    }
    &[]
}
