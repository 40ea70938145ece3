ghost use Rattle.std.specs.Prelude.{◌≡◌, ◌++◌, flat_map, IfOk, OnErr, OnOk};
ghost use Rattle.pgn_requests.specs.Settings.{kept_after};
ghost use Rattle.pgn_messages.specs.Served.{discard_answer, discarded, settled_answer, told_answer};
ghost use Rattle.pgn_messages.specs.Turns.{heard};

use crate::Asked;
use crate::answering::answer_of;
use crate::settling::{Done, discard_done, discard_ignored, discard_in_block, done_of, ignored};
use pgn_answers::BlockState;
use pgn_base::SessionNo;
use pgn_model::Item;
use pgn_requests::{Settings, Settled};
use std::alloc::{AllocError, Global};
use std::mem;

/// What a client is told of the answer to its query: what is cut in it, the messages of the items of its line behind the line itself, and
/// ReadyForQuery with the block's state after them.
pub fn tell_answer(
    alloc: Global,
    query: &Asked,
    items: &[Item],
    state: BlockState,
) -> Result<Vec<u8>, AllocError>
    ensures { IfOk result (λ bytes. bytes.items ≡ told_answer query.now items.now state) }
{
    let bytes = answer_of(alloc, query, items, state)?;
    Ok(bytes.into_vec())
}

/// What the client of a seat is told of what is settled without the session, by the state of its block; and settles it. The seat's number is
/// for the row of `pg_backend_pid()`. Where memory does not suffice the settings are as they were.
pub fn tell_settled(
    alloc: Global,
    seat: SessionNo,
    settled: &Settled,
    settings: &mut Settings,
    state: BlockState,
) -> Result<Vec<u8>, AllocError>
    ensures told { IfOk result (λ bytes. bytes.items
        ≡ settled_answer seat settled.now settings.old state) }
    ensures kept { OnOk result (settings.new ≡ kept_after state settled.now settings.old) }
    ensures unkept { OnErr result (settings.new ≡ settings.old) }
{
    match state {
        BlockState::Idle => {
            let done = done_of(alloc, seat, settled, settings, BlockState::Idle)?;
            Ok(take_over(settings, done))
        }
        BlockState::InBlock => {
            let done = done_of(alloc, seat, settled, settings, BlockState::InBlock)?;
            Ok(take_over(settings, done))
        }
        BlockState::Failed => {
            let bytes = ignored(alloc)?;
            Ok(bytes.into_vec())
        }
    }
}

/// What a client is told of `DISCARD ALL`, by the state of its block before the two lines and by the items of these; and sets its settings
/// back where it is done. Where memory does not suffice they are as they were.
pub fn tell_discard(
    alloc: Global,
    settings: &mut Settings,
    state: BlockState,
    refused: &[Item],
    unlistened: &[Item],
) -> Result<Vec<u8>, AllocError>
    ensures told { IfOk result (λ bytes. bytes.items
        ≡ discard_answer state settings.old
        (flat_map heard refused.now ++ flat_map heard unlistened.now)) }
    ensures kept { OnOk result (settings.new ≡ discarded state settings.old) }
    ensures unkept { OnErr result (settings.new ≡ settings.old) }
{
    match state {
        BlockState::Idle => {
            let done = discard_done(alloc, settings, refused, unlistened)?;
            Ok(take_over(settings, done))
        }
        BlockState::InBlock => {
            let bytes = discard_in_block(alloc, refused, unlistened)?;
            Ok(bytes.into_vec())
        }
        BlockState::Failed => {
            let bytes = discard_ignored(alloc, refused, unlistened)?;
            Ok(bytes.into_vec())
        }
    }
}

// What was done is told, and the settings are those after it.
fn take_over(settings: &mut Settings, done: Done) -> Vec<u8>
    ensures told { result.items ≡ done.bytes }
    ensures kept { settings.new ≡ done.settings }
{
    let Done {
        bytes,
        settings: next,
    } = done;
    drop(mem::replace(settings, next));
    bytes.into_vec()
}
