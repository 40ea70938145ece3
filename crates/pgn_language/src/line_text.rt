ghost use Rattle.std.specs.Prelude.{◌≡◌, ◌<◌, length, IfOk, OnErr};
ghost use Rattle.pgn_base.specs.declared.text.TheConstants.{TEXT_BYTES_IN_PLACE};

use pgn_base::{Copied, Text};
use std::alloc::{AllocError, Global};
use std::marker::Model;

/// The text of a script line, without the blanks at its ends. Contracts see its bytes.
pub struct LineText {
    text: Text,
}

// Written out, so that this crate proves it once for all that drop one.
impl Drop for LineText {
    fn drop(self) {
        let LineText { text: _ } = self;
    }
}

impl Model for LineText {
    ghost use Rattle.std.specs.Prelude.{List, ℕ};

    ghost Value = { List ℕ };

    ghost view = { λ line. line.text };
}

impl LineText {
    /// The text of these characters. It takes memory only for a text of more than 22 bytes.
    pub fn new(alloc: Global, text: &str) -> Result<LineText, AllocError>
        ensures ok { IfOk result (λ line. line ≡ text.now) }
        ensures memory { OnErr result (TEXT_BYTES_IN_PLACE < length text.now) }
    {
        let text = Text::new(alloc, text)?;
        Ok(LineText { text })
    }

    pub fn as_bytes(&self) -> &[u8]
        ensures { result.now ≡ self.now }
    {
        self.text.as_bytes()
    }
}

impl Copied for LineText {
    fn copy(&self, alloc: Global) -> Result<Self, AllocError> {
        let text = self.text.copy(alloc)?;
        Ok(LineText { text })
    }
}
