ghost use Rattle.std.specs.Prelude.{◌≡◌, ◌<◌, ◌≤◌, [], ◌∷◌, length, bytes_eq};
ghost use Rattle.std.proofs.Common.{rules};
ghost use Rattle.std.specs.Cmp.{partial_equiv_from_equiv};
ghost use Rattle.std.specs.Cmp.Lexicographic.{nat_list_eq_equiv};
ghost use Rattle.std.specs.Cmp.Rules.{hashing};

use std::hash::{Hash, Hasher};
use std::marker::Model;

/// At most `N` bytes that stand in the value itself; `N` is below 256. Contracts see the bytes.
#[derive(Drop)]
pub struct InPlace<const N: usize> {
    len: u8,
    bytes: [u8; N],
}

impl<const N: usize> Model for InPlace<N> {
    ghost use Rattle.std.specs.Prelude.{◌≤◌, List, ℕ, take};

    ghost Value = { List ℕ };

    ghost view = { λ text. take text.len text.bytes };

    ghost invariant = { λ text. text.len ≤ N };
}

impl<const N: usize> InPlace<N> {
    pub fn new(text: &[u8]) -> Self
        requires fits { length text.now ≤ N }
        requires small { N < 256 }
        ensures { result ≡ text.now }
    {
        let mut bytes = [0; N];
        bytes[..text.len()].copy_from_slice(text);
        InPlace {
            len: text.len() as u8,
            bytes,
        }
    }

    pub fn as_bytes(&self) -> &[u8]
        ensures { result.now ≡ self.now }
    {
        &self.bytes[..self.len as usize]
    }

    pub fn copy(&self) -> Self
        ensures { result ≡ self.now }
    {
        InPlace {
            len: self.len,
            bytes: self.bytes,
        }
    }
}

impl<const N: usize> PartialEq for InPlace<N> {
    ghost eq = { bytes_eq };

    ghost laws = { partial_equiv_from_equiv nat_list_eq_equiv };

    fn eq(&self, other: &Self) -> bool {
        self.as_bytes() == other.as_bytes()
    }
}

impl<const N: usize> Eq for InPlace<N> {
    ghost laws = { nat_list_eq_equiv };
}

impl<const N: usize> Hash for InPlace<N> {
    ghost hash_input = { λ text. text ∷ [] };

    ghost respects_eq = { Prim.search (hashing, rules) };

    fn hash<H: Hasher>(&self, state: &mut H) {
        state.write(self.as_bytes());
    }
}
