#![tactic(auto, using(crate::proofs::BytesLaws::joins))]

ghost use Rattle.std.specs.Prelude.{◌≡◌, ◌++◌, flat_map, IfOk, OnOk};
ghost use Rattle.pgn_messages.specs.Server.{complete};
ghost use Rattle.pgn_messages.specs.Messages.{answer_messages, first_message, item_messages, notices, rows_of};

use crate::bytes::Bytes;
use pgn_answers::BlockState;
use pgn_base::{Command, Tag, Warning};
use pgn_model::Item;
use std::alloc::{AllocError, Global};

/// The whole answer to a query with this command: the messages of the items of its line behind the line itself, and ReadyForQuery with
/// the block's state after them. Want of memory is the one refusal.
pub fn answer_query(
    alloc: Global,
    command: &Command,
    items: &[Item],
    state: BlockState,
) -> Result<Bytes, AllocError>
    ensures { IfOk result (λ bytes. bytes ≡ answer_messages command.now items.now state) }
{
    let mut bytes = Bytes::new(alloc);
    bytes.put_first(command)?;
    bytes.put_items(alloc, command, items)?;
    bytes.put_ready(state)?;
    Ok(bytes)
}

impl Bytes {
    /// Puts what stands first in the answer to a command at the end.
    pub fn put_first(&mut self, command: &Command) -> Result<(), AllocError>
        ensures { OnOk result (self.new ≡ self.old ++ first_message command.now) }
    {
        match command {
            Command::Empty => self.put_empty_query(),
            _ => Ok(()),
        }
    }

    // The messages of the items of a line with this command.
    fn put_items(
        &mut self,
        alloc: Global,
        command: &Command,
        items: &[Item],
    ) -> Result<(), AllocError>
        ensures { OnOk result (self.new ≡ self.old ++ flat_map (item_messages command.now) items.now) }
    {
        for item in items {
            self.put_item(alloc, command, item)?;
        }
        Ok(())
    }

    // The messages of an item of a line with this command.
    fn put_item(&mut self, alloc: Global, command: &Command, item: &Item) -> Result<(), AllocError>
        ensures { OnOk result (self.new ≡ self.old ++ item_messages command.now item.now) }
    {
        match item {
            Item::Reply { tag, warning } => self.put_reply(alloc, command, tag, warning),
            Item::Refuse { refusal } => self.put_error(alloc, refusal),
            Item::Channels { names } => self.put_channels(names.as_slice()),
            Item::Used { usage } => self.put_usage(alloc, usage),
            Item::Read { got, .. } => self.put_notifications(got.as_slice()),
            _ => Ok(()),
        }
    }

    // A reply: its warning, the row of a call of pg_notify, and the command's end.
    fn put_reply(
        &mut self,
        alloc: Global,
        command: &Command,
        tag: &Tag,
        warning: &Option<Warning>,
    ) -> Result<(), AllocError>
        ensures { OnOk result (self.new ≡ self.old ++ (notices warning.now ++ rows_of command.now ++ complete tag.now)) }
    {
        self.put_warning(warning)?;
        self.put_rows(command)?;
        self.put_complete(alloc, tag)?;
        Ok(())
    }

    /// Puts the notice of a warning at the end, where there is one.
    pub fn put_warning(&mut self, warning: &Option<Warning>) -> Result<(), AllocError>
        ensures { OnOk result (self.new ≡ self.old ++ notices warning.now) }
    {
        match warning {
            Some(warning) => self.put_notice(*warning),
            None => Ok(()),
        }
    }

    // The row of a call of pg_notify.
    fn put_rows(&mut self, command: &Command) -> Result<(), AllocError>
        ensures { OnOk result (self.new ≡ self.old ++ rows_of command.now) }
    {
        match command {
            Command::PgNotify(_) => self.put_call_row(),
            _ => Ok(()),
        }
    }
}
