ghost use Rattle.std.specs.Prelude.{◌≡◌, ◌<◌, ◌↔◌, length, Contains, IfOk, IsTrue, OnErr, string_bytes};
ghost use Rattle.pgn_base.specs.declared.text.TheConstants.{TEXT_BYTES_IN_PLACE};

use crate::Copied;
use crate::in_place::InPlace;
use memchr::memchr;
use std::alloc::{AllocError, Global};
use std::marker::Model;
use std::sync::ArcStr;

/// The most bytes of a text that stands in the value itself.
pub const TEXT_BYTES_IN_PLACE: usize = 22;

/// A text that does not change. Up to 22 bytes stand in the value itself; a longer text stands on the heap, once for all its
/// copies, which may be in several threads. So a copy takes no memory. Contracts see its bytes.
pub struct Text {
    place: Place,
}

// Written out, so that this crate proves it once for all that drop one.
impl Drop for Text {
    fn drop(self) {
        let Text { place: _ } = self;
    }
}

// Where a text stands.
#[derive(Drop)]
enum Place {
    Here(InPlace<TEXT_BYTES_IN_PLACE>),
    Shared(ArcStr),
}

impl Model for Text {
    ghost use Rattle.std.specs.Prelude.{List, ℕ};
    ghost use Rattle.pgn_base.specs.Places.{bytes_at};

    ghost Value = { List ℕ };

    ghost view = { λ text. bytes_at text.place };
}

impl Text {
    /// The text of these characters. It takes memory only for a text that does not stand in the value itself.
    pub fn new(alloc: Global, text: &str) -> Result<Text, AllocError>
        ensures ok { IfOk result (λ kept. kept ≡ text.now) }
        ensures memory { OnErr result (TEXT_BYTES_IN_PLACE < length text.now) }
    {
        if text.len() <= TEXT_BYTES_IN_PLACE {
            let place = Place::Here(InPlace::new(text.as_bytes()));
            return Ok(Text { place });
        }
        let place = Place::Shared(ArcStr::from_str(alloc, text)?);
        Ok(Text { place })
    }

    /// The text of this string. A text that does not stand in the value itself keeps the string's memory and is not copied.
    pub fn from_string(text: String) -> Result<Text, AllocError>
        ensures ok { IfOk result (λ kept. kept ≡ string_bytes text) }
        ensures memory { OnErr result (TEXT_BYTES_IN_PLACE < length (string_bytes text)) }
    {
        if text.len() > TEXT_BYTES_IN_PLACE {
            let place = Place::Shared(ArcStr::from_string(text)?);
            return Ok(Text { place });
        }
        let place = Place::Here(InPlace::new(text.as_str().as_bytes()));
        Ok(Text { place })
    }

    pub fn as_bytes(&self) -> &[u8]
        ensures { result.now ≡ self.now }
    {
        match &self.place {
            Place::Here(text) => text.as_bytes(),
            Place::Shared(text) => text.as_str().as_bytes(),
        }
    }
}

impl Copied for Text {
    fn copy(&self, _alloc: Global) -> Result<Self, AllocError> {
        let place = match &self.place {
            Place::Here(text) => Place::Here(text.copy()),
            Place::Shared(text) => Place::Shared(text.clone()?),
        };
        Ok(Text { place })
    }
}

/// Whether a text has a zero byte.
pub fn has_nul(text: &[u8]) -> bool
    ensures { IsTrue result ↔ Contains text.now 0 }
{
    memchr(0, text).is_some()
}

// A name and a payload take so much where they stand.
const _: () = prove!(size_of::<Text>() == 24);
