ghost use Rattle.std.specs.Prelude.{◌≡◌, ◌≤◌, length, IfOk};
ghost use Rattle.pgn_requests.specs.declared.short_text.TheConstants.{SHORT_BYTES_MAX};

use pgn_base::{Copied, Text};
use std::alloc::{AllocError, Global};
use std::marker::Model;

/// The most bytes of a short text.
pub const SHORT_BYTES_MAX: usize = 255;

/// A text of at most 255 bytes: a setting's value, or what a client is told of a refusal. Contracts see its bytes.
pub struct ShortText {
    text: Text,
}

// Written out, so that this crate proves it once for all that drop one.
impl Drop for ShortText {
    fn drop(self) {
        let ShortText { text: _ } = self;
    }
}

impl Model for ShortText {
    ghost use Rattle.std.specs.Prelude.{List, ℕ, ◌≤◌, length};
    ghost use Rattle.pgn_requests.specs.declared.short_text.TheConstants.{SHORT_BYTES_MAX};

    ghost Value = { List ℕ };

    ghost view = { λ short. short.text };

    ghost invariant = { λ short. length short.text ≤ SHORT_BYTES_MAX };
}

impl ShortText {
    /// The text of these characters.
    pub fn new(alloc: Global, text: &str) -> Result<ShortText, AllocError>
        requires { length text.now ≤ SHORT_BYTES_MAX }
        ensures { IfOk result (λ short. short ≡ text.now) }
    {
        let text = Text::new(alloc, text)?;
        Ok(ShortText { text })
    }

    pub fn as_bytes(&self) -> &[u8]
        ensures bytes { result.now ≡ self.now }
        ensures short { length self.now ≤ SHORT_BYTES_MAX }
    {
        self.text.as_bytes()
    }
}

impl Copied for ShortText {
    fn copy(&self, alloc: Global) -> Result<Self, AllocError> {
        let text = self.text.copy(alloc)?;
        Ok(ShortText { text })
    }
}
