ghost use Rattle.std.specs.Prelude.{◌≡◌, ◌<◌, ◌≤◌, ◌↔◌, [], ◌∷◌, length, Contains, IfOk, OnErr, OnOk, IsErrOf, bytes_eq, string_bytes};
ghost use Rattle.std.proofs.Common.{rules};
ghost use Rattle.std.specs.Cmp.{partial_equiv_from_equiv};
ghost use Rattle.std.specs.Cmp.Lexicographic.{nat_list_eq_equiv};
ghost use Rattle.std.specs.Cmp.Rules.{hashing};
ghost use Rattle.pgn_base.specs.Texts.{IsPayload};
ghost use Rattle.pgn_base.specs.declared.text.TheConstants.{TEXT_BYTES_IN_PLACE};

use crate::text::has_nul;
use crate::{Copied, PAYLOAD_BYTES_MAX, Text};
use std::alloc::{AllocError, Global};
use std::hash::{Hash, Hasher};
use std::marker::Model;

/// What a notification says: 0 to 7,999 bytes of UTF-8 without a zero byte. Contracts see its bytes.
pub struct Payload {
    text: Text,
}

// Written out, so that this crate proves it once for all that drop one.
impl Drop for Payload {
    fn drop(self) {
        let Payload { text: _ } = self;
    }
}

/// Why a text is no payload, or why it was not kept as one.
#[derive(Clone, Copy)]
pub enum PayloadFault {
    TooLong,
    Nul,
    Memory,
}

impl Model for Payload {
    ghost use Rattle.std.specs.Prelude.{List, ℕ};
    ghost use Rattle.pgn_base.specs.Texts.{IsPayload};

    ghost Value = { List ℕ };

    ghost view = { λ payload. payload.text };

    ghost invariant = { λ payload. IsPayload payload.text };
}

impl Payload {
    /// The payload of this text. The faults are tested in the order of `PayloadFault`. A text of at most 22 bytes takes no memory.
    pub fn new(alloc: Global, text: &str) -> Result<Payload, PayloadFault>
        ensures ok { IfOk result (λ payload. payload ≡ text.now) }
        ensures too_long { IsErrOf result PayloadFault.TooLong
            ↔ (PAYLOAD_BYTES_MAX < length text.now) }
        ensures nul { IsErrOf result PayloadFault.Nul
            ↔ ((length text.now ≤ PAYLOAD_BYTES_MAX) × Contains text.now 0) }
        ensures memory { IsErrOf result PayloadFault.Memory
            → TEXT_BYTES_IN_PLACE < length text.now }
    {
        test(text)?;
        match Text::new(alloc, text) {
            Ok(text) => Ok(Payload { text }),
            Err(AllocError) => Err(PayloadFault::Memory),
        }
    }

    /// The payload of this string, with the faults of `new`. A text of more than 22 bytes keeps the string's memory and is not
    /// copied.
    pub fn from_string(text: String) -> Result<Payload, PayloadFault>
        ensures ok { IfOk result (λ payload. payload ≡ string_bytes text) }
        ensures too_long { IsErrOf result PayloadFault.TooLong
            ↔ (PAYLOAD_BYTES_MAX < length (string_bytes text)) }
        ensures nul { IsErrOf result PayloadFault.Nul
            ↔ ((length (string_bytes text) ≤ PAYLOAD_BYTES_MAX) × Contains (string_bytes text) 0) }
        ensures memory { IsErrOf result PayloadFault.Memory
            → TEXT_BYTES_IN_PLACE < length (string_bytes text) }
    {
        if let Err(fault) = test(text.as_str()) {
            drop(text);
            return Err(fault);
        }
        match Text::from_string(text) {
            Ok(text) => Ok(Payload { text }),
            Err(AllocError) => Err(PayloadFault::Memory),
        }
    }

    /// The payload of a text that is one. It fails for want of memory only, which a text of at most 22 bytes does not take.
    pub fn of_valid(alloc: Global, text: &str) -> Result<Payload, AllocError>
        requires { IsPayload text.now }
        ensures ok { IfOk result (λ payload. payload ≡ text.now) }
        ensures memory { OnErr result (TEXT_BYTES_IN_PLACE < length text.now) }
    {
        let text = Text::new(alloc, text)?;
        Ok(Payload { text })
    }

    /// The payload of a string that is one, whose memory it keeps as `from_string` does. It fails for want of memory only.
    pub fn of_valid_string(text: String) -> Result<Payload, AllocError>
        requires { IsPayload (string_bytes text) }
        ensures ok { IfOk result (λ payload. payload ≡ string_bytes text) }
        ensures memory { OnErr result (TEXT_BYTES_IN_PLACE < length (string_bytes text)) }
    {
        let text = Text::from_string(text)?;
        Ok(Payload { text })
    }

    pub fn as_bytes(&self) -> &[u8]
        ensures value { result.now ≡ self.now }
        ensures valid { IsPayload self.now }
    {
        self.text.as_bytes()
    }
}

// The first fault of a text as a payload, but for want of memory.
fn test(text: &str) -> Result<(), PayloadFault>
    ensures ok { OnOk result (IsPayload text.now) }
    ensures too_long { IsErrOf result PayloadFault.TooLong ↔ (PAYLOAD_BYTES_MAX < length text.now) }
    ensures nul { IsErrOf result PayloadFault.Nul
        ↔ ((length text.now ≤ PAYLOAD_BYTES_MAX) × Contains text.now 0) }
    ensures memory { ¬ IsErrOf result PayloadFault.Memory }
{
    if text.len() > PAYLOAD_BYTES_MAX {
        return Err(PayloadFault::TooLong);
    }
    if has_nul(text.as_bytes()) {
        return Err(PayloadFault::Nul);
    }
    Ok(())
}

impl Copied for Payload {
    fn copy(&self, alloc: Global) -> Result<Self, AllocError> {
        let text = self.text.copy(alloc)?;
        Ok(Payload { text })
    }
}

impl PartialEq for Payload {
    ghost eq = { bytes_eq };

    ghost laws = { partial_equiv_from_equiv nat_list_eq_equiv };

    fn eq(&self, other: &Payload) -> bool {
        self.as_bytes() == other.as_bytes()
    }
}

impl Eq for Payload {
    ghost laws = { nat_list_eq_equiv };
}

impl Hash for Payload {
    ghost hash_input = { λ payload. payload ∷ [] };

    ghost respects_eq = { Prim.search (hashing, rules) };

    fn hash<H: Hasher>(&self, state: &mut H) {
        state.write(self.as_bytes());
    }
}
