#![tactic(auto, using(crate::proofs::BytesLaws::joins))]

ghost use Rattle.std.specs.Prelude.{◌≡◌, ◌+◌, ◌≤◌, [], ◌∷◌, ◌++◌, decimal, length, IfOk, OnOk};
ghost use Rattle.pgn_messages.specs.Server.{ended, field, four, two};
ghost use Rattle.pgn_messages.specs.declared.bytes.TheConstants.{BODY_BYTES_MAX};

use std::alloc::{AllocError, Global};
use std::marker::Model;

/// The most bytes of a message's body. The longest message tells of a name that is cut, which has the bytes of a line.
pub const BODY_BYTES_MAX: usize = 131_071;

/// Bytes on their way to a client. Contracts see the list of them. After a refusal nothing is said of them.
#[derive(Drop)]
pub struct Bytes {
    bytes: Vec<u8>,
}

impl Model for Bytes {
    ghost use Rattle.std.specs.Prelude.{List, ℕ};

    ghost Value = { List ℕ };

    ghost view = { λ b. b.bytes.items };
}

impl Bytes {
    /// No bytes. It takes no memory.
    pub fn new(alloc: Global) -> Bytes
        ensures { result ≡ [] }
    {
        Bytes {
            bytes: Vec::new(alloc),
        }
    }

    /// These bytes.
    pub fn of(alloc: Global, text: &[u8]) -> Result<Bytes, AllocError>
        ensures { IfOk result (λ bytes. bytes ≡ text.now) }
    {
        let bytes = Vec::from_slice(alloc, text)?;
        Ok(Bytes { bytes })
    }

    pub fn as_slice(&self) -> &[u8]
        ensures { result.now ≡ self.now }
    {
        self.bytes.as_slice()
    }

    /// The bytes themselves, without a copy.
    pub fn into_vec(self) -> Vec<u8>
        ensures { result.items ≡ self }
    {
        let Bytes { bytes } = self;
        bytes
    }

    /// Puts a text at the end.
    pub fn put(&mut self, text: &[u8]) -> Result<(), AllocError>
        ensures { OnOk result (self.new ≡ self.old ++ text.now) }
    {
        self.bytes.extend_from_slice(text)?;
        Ok(())
    }

    /// Puts a number in four bytes at the end, the most significant first.
    pub fn put_four(&mut self, n: u32) -> Result<(), AllocError>
        ensures { OnOk result (self.new ≡ self.old ++ four n) }
    {
        self.put(&n.to_be_bytes())
    }

    /// Puts a number in two bytes at the end.
    pub fn put_two(&mut self, n: u16) -> Result<(), AllocError>
        ensures { OnOk result (self.new ≡ self.old ++ two n) }
    {
        self.put(&n.to_be_bytes())
    }

    /// Puts a number in decimal at the end. It has at most 20 digits; what is promised is what `itoa` does of all its types.
    pub fn put_decimal(&mut self, n: u64) -> Result<(), AllocError>
        ensures value { OnOk result (self.new ≡ self.old ++ decimal n) }
        ensures short { OnOk result (length self.new ≤ length self.old + 40) }
    {
        let mut digits = itoa::Buffer::new();
        self.put(digits.format(n).as_bytes())?;
        Ok(())
    }

    /// Puts a text and the zero byte that ends it at the end.
    pub fn put_ended(&mut self, text: &[u8]) -> Result<(), AllocError>
        ensures { OnOk result (self.new ≡ self.old ++ ended text.now) }
    {
        self.put(text)?;
        self.put(&[0])?;
        Ok(())
    }

    /// Puts a field of a notice or an error at the end.
    pub fn put_field(&mut self, letter: u8, text: &[u8]) -> Result<(), AllocError>
        ensures { OnOk result (self.new ≡ self.old ++ field letter text.now) }
    {
        self.put(&[letter])?;
        self.put_ended(text)?;
        Ok(())
    }

    /// Puts the head of a message at the end: its letter, and its length, where its body has so many bytes.
    pub fn put_head(&mut self, letter: u8, size: usize) -> Result<(), AllocError>
        requires { size ≤ BODY_BYTES_MAX }
        ensures { OnOk result (self.new ≡ self.old ++ letter ∷ four (4 + size)) }
    {
        self.put(&[letter])?;
        self.put_four(4 + size as u32)?;
        Ok(())
    }
}
