#![tactic(auto, using(crate::proofs::BytesLaws::joins))]

ghost use Rattle.std.specs.Prelude.{◌≡◌, ◌+◌, ◌≤◌, [], ◌++◌, codes, flat_map, length, IfOk, OnOk};
ghost use Rattle.pgn_messages.specs.declared.server.TheConstants.{TEXT_BYTES_MAX};
ghost use Rattle.pgn_messages.specs.Server.{column, columns, complete, cut_notice, cut_text, empty_query, error, error_of, fatal, fields, message, notice, notification, ready, row, share};

use crate::bytes::Bytes;
use crate::texts::{
    code_of_refusal, code_of_warning, share_bytes, tag_bytes, text_of_refusal, text_of_warning,
};
use pgn_answers::BlockState;
use pgn_base::{Delivery, Name, Refusal, Tag, Usage, Warning};
use std::alloc::{AllocError, Global};

// The most bytes of the text of a notice or an error.
const TEXT_BYTES_MAX: usize = 66_000;

impl Bytes {
    // A notice or an error.
    fn fields(
        &mut self,
        letter: u8,
        severity: &[u8],
        code: &[u8],
        text: &[u8],
    ) -> Result<(), AllocError>
        requires severity { length severity.now ≤ 10 }
        requires code { length code.now ≤ 10 }
        requires text { length text.now ≤ TEXT_BYTES_MAX }
        ensures { OnOk result (self.new ≡ self.old ++ message letter (fields severity.now code.now text.now)) }
    {
        let size = 2 * severity.len() + code.len() + text.len() + 9;
        self.put_head(letter, size)?;
        self.put_field(b'S', severity)?;
        self.put_field(b'V', severity)?;
        self.put_field(b'C', code)?;
        self.put_field(b'M', text)?;
        self.put(&[0])?;
        Ok(())
    }

    /// Puts the notice of a warning at the end.
    pub fn put_notice(&mut self, warning: Warning) -> Result<(), AllocError>
        ensures { OnOk result (self.new ≡ self.old ++ notice warning) }
    {
        self.fields(
            b'N',
            b"WARNING",
            code_of_warning(warning),
            text_of_warning(warning),
        )?;
        Ok(())
    }

    /// Puts the notice that an identifier is cut to another at the end. The error is also that it is longer than a line.
    pub fn put_cut_notice(
        &mut self,
        alloc: Global,
        name: &[u8],
        cut: &[u8],
    ) -> Result<(), AllocError>
        ensures { OnOk result (self.new ≡ self.old ++ cut_notice name.now cut.now) }
    {
        let text = text_of_cut(alloc, name, cut)?;
        self.put_notice_of(text.as_slice())
    }

    // A notice with this text, where it is not too long.
    fn put_notice_of(&mut self, text: &[u8]) -> Result<(), AllocError>
        ensures { OnOk result (self.new ≡ self.old ++ message 78 (fields (codes "NOTICE") (codes "42622") text.now)) }
    {
        if text.len() > TEXT_BYTES_MAX {
            return Err(AllocError);
        }
        self.fields(b'N', b"NOTICE", b"42622", text)
    }

    /// Puts the error of a refusal at the end.
    pub fn put_error(&mut self, alloc: Global, refusal: &Refusal) -> Result<(), AllocError>
        ensures { OnOk result (self.new ≡ self.old ++ error refusal.now) }
    {
        let text = text_of_refusal(alloc, refusal)?;
        self.fields(b'E', b"ERROR", code_of_refusal(refusal), text.as_slice())
    }

    /// Puts an error with this code and this text at the end.
    pub fn put_error_of(&mut self, code: &[u8], text: &[u8]) -> Result<(), AllocError>
        requires code { length code.now ≤ 10 }
        requires text { length text.now ≤ 255 }
        ensures { OnOk result (self.new ≡ self.old ++ error_of code.now text.now) }
    {
        self.fields(b'E', b"ERROR", code, text)
    }

    /// Puts an error of the severity FATAL with this code and this text at the end. The server ends the conversation behind it.
    pub fn put_fatal(&mut self, code: &[u8], text: &[u8]) -> Result<(), AllocError>
        requires code { length code.now ≤ 10 }
        requires text { length text.now ≤ 100 }
        ensures { OnOk result (self.new ≡ self.old ++ fatal code.now text.now) }
    {
        self.fields(b'E', b"FATAL", code, text)
    }

    /// Puts the description of one column with this name at the end.
    pub fn put_columns(&mut self, name: &[u8]) -> Result<(), AllocError>
        requires { length name.now ≤ 100 }
        ensures { OnOk result (self.new ≡ self.old ++ columns name.now) }
    {
        self.put_head(b'T', name.len() + 21)?;
        self.put_two(1)?;
        self.put_ended(name)?;
        self.put_column()?;
        Ok(())
    }

    // What is said of each column: it is of no table, and its type is text.
    fn put_column(&mut self) -> Result<(), AllocError>
        ensures { OnOk result (self.new ≡ self.old ++ column) }
    {
        self.put(&[
            0, 0, 0, 0, 0, 0, 0, 0, 0, 25, 255, 255, 255, 255, 255, 255, 0, 0,
        ])
    }

    /// Puts a row with one text at the end.
    pub fn put_row(&mut self, text: &[u8]) -> Result<(), AllocError>
        requires { length text.now ≤ 255 }
        ensures { OnOk result (self.new ≡ self.old ++ row text.now) }
    {
        self.put_head(b'D', text.len() + 6)?;
        self.put_two(1)?;
        self.put_four(text.len() as u32)?;
        self.put(text)?;
        Ok(())
    }

    /// Puts the end of a command with this tag at the end.
    pub fn put_complete(&mut self, alloc: Global, tag: &Tag) -> Result<(), AllocError>
        ensures { OnOk result (self.new ≡ self.old ++ complete tag.now) }
    {
        let text = tag_bytes(alloc, tag)?;
        self.put_head(b'C', text.as_slice().len() + 1)?;
        self.put_ended(text.as_slice())?;
        Ok(())
    }

    /// Puts a notification at the end.
    pub fn put_notification(&mut self, delivery: &Delivery) -> Result<(), AllocError>
        ensures { OnOk result (self.new ≡ self.old ++ notification delivery.now) }
    {
        let channel = delivery.note.channel.as_bytes();
        let payload = delivery.note.payload.as_bytes();
        self.put_head(b'A', 4 + channel.len() + 1 + payload.len() + 1)?;
        self.put_four(delivery.pid)?;
        self.put_ended(channel)?;
        self.put_ended(payload)?;
        Ok(())
    }

    /// Puts the answer to an empty query at the end.
    pub fn put_empty_query(&mut self) -> Result<(), AllocError>
        ensures { OnOk result (self.new ≡ self.old ++ empty_query) }
    {
        self.put_head(b'I', 0)
    }

    /// Puts the word that the next query may come at the end, with the block's state.
    pub fn put_ready(&mut self, state: BlockState) -> Result<(), AllocError>
        ensures { OnOk result (self.new ≡ self.old ++ ready state) }
    {
        let letter = match state {
            BlockState::Idle => b'I',
            BlockState::InBlock => b'T',
            BlockState::Failed => b'E',
        };
        self.put_head(b'Z', 1)?;
        self.put(&[letter])?;
        Ok(())
    }

    // A row for each of these names.
    fn put_name_rows(&mut self, names: &[Name]) -> Result<(), AllocError>
        ensures { OnOk result (self.new ≡ self.old ++ flat_map row names.now) }
    {
        for name in names {
            self.put_row(name.as_bytes())?;
        }
        Ok(())
    }

    /// Puts each of these notifications at the end.
    pub fn put_notifications(&mut self, deliveries: &[Delivery]) -> Result<(), AllocError>
        ensures { OnOk result (self.new ≡ self.old ++ flat_map notification deliveries.now) }
    {
        for delivery in deliveries {
            self.put_notification(delivery)?;
        }
        Ok(())
    }

    /// Puts the row of a call of pg_notify at the end: one with an empty text.
    pub fn put_call_row(&mut self) -> Result<(), AllocError>
        ensures { OnOk result (self.new ≡ self.old ++ (columns (codes "pg_notify") ++ row [])) }
    {
        self.put_columns(b"pg_notify")?;
        self.put_row(b"")?;
        Ok(())
    }

    /// Puts the rows of these channels at the end.
    pub fn put_channels(&mut self, names: &[Name]) -> Result<(), AllocError>
        ensures { OnOk result (self.new ≡ self.old ++ (columns (codes "pg_listening_channels") ++ flat_map row names.now)) }
    {
        self.put_columns(b"pg_listening_channels")?;
        self.put_name_rows(names)?;
        Ok(())
    }

    /// Puts the row of the queue's usage at the end.
    pub fn put_usage(&mut self, alloc: Global, usage: &Usage) -> Result<(), AllocError>
        ensures { OnOk result (self.new ≡ self.old ++ (columns (codes "pg_notification_queue_usage") ++ row (share usage.now))) }
    {
        let text = share_bytes(alloc, usage)?;
        self.put_columns(b"pg_notification_queue_usage")?;
        self.put_row(text.as_slice())?;
        Ok(())
    }
}

// What is said where an identifier is cut to another.
fn text_of_cut(alloc: Global, name: &[u8], cut: &[u8]) -> Result<Bytes, AllocError>
    ensures { IfOk result (λ text. text ≡ cut_text name.now cut.now) }
{
    let mut text = Bytes::of(alloc, b"identifier \"")?;
    text.put(name)?;
    text.put(b"\" will be truncated to \"")?;
    text.put(cut)?;
    text.put(b"\"")?;
    Ok(text)
}
