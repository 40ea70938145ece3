#![tactic(auto, using(crate::proofs::BytesLaws::joins))]

ghost use Rattle.std.specs.Prelude.{◌≡◌, ◌≤◌, ◌++◌, length, OnOk};
ghost use Rattle.pgn_messages.specs.Server.{completed, described, four, fraction, row, status, two};

use crate::bytes::Bytes;
use crate::digits::fraction_bytes;
use pgn_base::Usage;
use std::alloc::{AllocError, Global};

impl Bytes {
    /// Puts the description of one column at the end: its name, the number of its type, and the size of that, 65,535 where it has none.
    pub fn put_described(&mut self, name: &[u8], kind: u32, size: u16) -> Result<(), AllocError>
        requires { length name.now ≤ 100 }
        ensures { OnOk result (self.new ≡ self.old ++ described name.now kind size) }
    {
        self.put_head(b'T', name.len() + 21)?;
        self.put_two(1)?;
        self.put_ended(name)?;
        self.put_type(kind, size)?;
        Ok(())
    }

    // What is said of a column of this type: it is of no table.
    fn put_type(&mut self, kind: u32, size: u16) -> Result<(), AllocError>
        ensures { OnOk result (self.new ≡ self.old ++ (four 0 ++ two 0 ++ four kind ++ two size ++ four 4294967295 ++ two 0)) }
    {
        self.put(&[0, 0, 0, 0, 0, 0])?;
        self.put_four(kind)?;
        self.put_two(size)?;
        self.put_four(u32::MAX)?;
        self.put_two(0)?;
        Ok(())
    }

    /// Puts the end of a command with this text at the end.
    pub fn put_completed(&mut self, text: &[u8]) -> Result<(), AllocError>
        requires { length text.now ≤ 100 }
        ensures { OnOk result (self.new ≡ self.old ++ completed text.now) }
    {
        self.put_head(b'C', text.len() + 1)?;
        self.put_ended(text)?;
        Ok(())
    }

    /// Puts a setting and its value at the end.
    pub fn put_status(&mut self, name: &[u8], value: &[u8]) -> Result<(), AllocError>
        requires name { length name.now ≤ 100 }
        requires value { length value.now ≤ 255 }
        ensures { OnOk result (self.new ≡ self.old ++ status name.now value.now) }
    {
        self.put_head(b'S', name.len() + 1 + value.len() + 1)?;
        self.put_ended(name)?;
        self.put_ended(value)?;
        Ok(())
    }

    /// Puts a row at the end: how much of the queue is in use, as a fraction.
    pub fn put_fraction(&mut self, alloc: Global, usage: &Usage) -> Result<(), AllocError>
        ensures { OnOk result (self.new ≡ self.old ++ row (fraction usage.now)) }
    {
        let text = fraction_bytes(alloc, usage)?;
        self.put_row(text.as_slice())?;
        Ok(())
    }
}
