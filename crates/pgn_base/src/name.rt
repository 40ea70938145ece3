ghost use Rattle.std.specs.Prelude.{◌≡◌, ◌<◌, ◌≤◌, ◌↔◌, [], ◌∷◌, length, Contains, IfOk, OnErr, OnOk, IsErrOf, bytes_eq, string_bytes};
ghost use Rattle.std.proofs.Common.{rules};
ghost use Rattle.std.specs.Cmp.{partial_equiv_from_equiv};
ghost use Rattle.std.specs.Cmp.Lexicographic.{nat_list_eq_equiv};
ghost use Rattle.std.specs.Cmp.Rules.{hashing};
ghost use Rattle.pgn_base.specs.Texts.{IsName};
ghost use Rattle.pgn_base.specs.declared.text.TheConstants.{TEXT_BYTES_IN_PLACE};

use crate::text::has_nul;
use crate::{Copied, NAME_BYTES_MAX, Seq, Text};
use std::alloc::{AllocError, Global};
use std::hash::{Hash, Hasher};
use std::marker::Model;

/// A channel's, a savepoint's, a section's or a flag's name: 1 to 63 bytes of UTF-8 without a zero byte. Contracts see its bytes.
pub struct Name {
    text: Text,
}

// Written out, so that this crate proves it once for all that drop one.
impl Drop for Name {
    fn drop(self) {
        let Name { text: _ } = self;
    }
}

pub type Names = Seq<Name>;

/// Why a text is no name, or why it was not kept as one.
#[derive(Clone, Copy)]
pub enum NameFault {
    Empty,
    TooLong,
    Nul,
    Memory,
}

impl Model for Name {
    ghost use Rattle.std.specs.Prelude.{List, ℕ};
    ghost use Rattle.pgn_base.specs.Texts.{IsName};

    ghost Value = { List ℕ };

    ghost view = { λ name. name.text };

    ghost invariant = { λ name. IsName name.text };
}

impl Name {
    /// The name of this text. The faults are tested in the order of `NameFault`, so that a long text with a zero byte is too long.
    /// A text of at most 22 bytes takes no memory.
    pub fn new(alloc: Global, text: &str) -> Result<Name, NameFault>
        ensures ok { IfOk result (λ name. name ≡ text.now) }
        ensures empty { IsErrOf result NameFault.Empty ↔ (text.now ≡ []) }
        ensures too_long { IsErrOf result NameFault.TooLong ↔ (NAME_BYTES_MAX < length text.now) }
        ensures nul { IsErrOf result NameFault.Nul
            ↔ ((length text.now ≤ NAME_BYTES_MAX) × Contains text.now 0) }
        ensures memory { IsErrOf result NameFault.Memory → TEXT_BYTES_IN_PLACE < length text.now }
    {
        test(text)?;
        match Text::new(alloc, text) {
            Ok(text) => Ok(Name { text }),
            Err(AllocError) => Err(NameFault::Memory),
        }
    }

    /// The name of this string, with the faults of `new`. A text of more than 22 bytes keeps the string's memory and is not
    /// copied.
    pub fn from_string(text: String) -> Result<Name, NameFault>
        ensures ok { IfOk result (λ name. name ≡ string_bytes text) }
        ensures empty { IsErrOf result NameFault.Empty ↔ (string_bytes text ≡ []) }
        ensures too_long { IsErrOf result NameFault.TooLong
            ↔ (NAME_BYTES_MAX < length (string_bytes text)) }
        ensures nul { IsErrOf result NameFault.Nul
            ↔ ((length (string_bytes text) ≤ NAME_BYTES_MAX) × Contains (string_bytes text) 0) }
        ensures memory { IsErrOf result NameFault.Memory
            → TEXT_BYTES_IN_PLACE < length (string_bytes text) }
    {
        if let Err(fault) = test(text.as_str()) {
            drop(text);
            return Err(fault);
        }
        match Text::from_string(text) {
            Ok(text) => Ok(Name { text }),
            Err(AllocError) => Err(NameFault::Memory),
        }
    }

    /// The name of a text that is one. It fails for want of memory only, which a text of at most 22 bytes does not take.
    pub fn of_valid(alloc: Global, text: &str) -> Result<Name, AllocError>
        requires { IsName text.now }
        ensures ok { IfOk result (λ name. name ≡ text.now) }
        ensures memory { OnErr result (TEXT_BYTES_IN_PLACE < length text.now) }
    {
        let text = Text::new(alloc, text)?;
        Ok(Name { text })
    }

    /// The name of a string that is one, whose memory it keeps as `from_string` does. It fails for want of memory only.
    pub fn of_valid_string(text: String) -> Result<Name, AllocError>
        requires { IsName (string_bytes text) }
        ensures ok { IfOk result (λ name. name ≡ string_bytes text) }
        ensures memory { OnErr result (TEXT_BYTES_IN_PLACE < length (string_bytes text)) }
    {
        let text = Text::from_string(text)?;
        Ok(Name { text })
    }

    pub fn as_bytes(&self) -> &[u8]
        ensures value { result.now ≡ self.now }
        ensures valid { IsName self.now }
    {
        self.text.as_bytes()
    }
}

// The first fault of a text as a name, but for want of memory.
fn test(text: &str) -> Result<(), NameFault>
    ensures ok { OnOk result (IsName text.now) }
    ensures empty { IsErrOf result NameFault.Empty ↔ (text.now ≡ []) }
    ensures too_long { IsErrOf result NameFault.TooLong ↔ (NAME_BYTES_MAX < length text.now) }
    ensures nul { IsErrOf result NameFault.Nul
        ↔ ((length text.now ≤ NAME_BYTES_MAX) × Contains text.now 0) }
    ensures memory { ¬ IsErrOf result NameFault.Memory }
{
    if text.is_empty() {
        return Err(NameFault::Empty);
    }
    if text.len() > NAME_BYTES_MAX {
        return Err(NameFault::TooLong);
    }
    if has_nul(text.as_bytes()) {
        return Err(NameFault::Nul);
    }
    Ok(())
}

impl Copied for Name {
    fn copy(&self, alloc: Global) -> Result<Self, AllocError> {
        let text = self.text.copy(alloc)?;
        Ok(Name { text })
    }
}

impl PartialEq for Name {
    ghost eq = { bytes_eq };

    ghost laws = { partial_equiv_from_equiv nat_list_eq_equiv };

    fn eq(&self, other: &Name) -> bool {
        self.as_bytes() == other.as_bytes()
    }
}

impl Eq for Name {
    ghost laws = { nat_list_eq_equiv };
}

impl Hash for Name {
    ghost hash_input = { λ name. name ∷ [] };

    ghost respects_eq = { Prim.search (hashing, rules) };

    fn hash<H: Hasher>(&self, state: &mut H) {
        state.write(self.as_bytes());
    }
}
