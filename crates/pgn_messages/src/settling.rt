#![tactic(auto, using(crate::proofs::BytesLaws::joins))]

ghost use Rattle.std.specs.Prelude.{◌≡◌, ◌+◌, ◌++◌, codes, decimal, flat_map, IfOk, OnOk};
ghost use Rattle.pgn_base.specs.declared.limits.TheConstants.{PID_BASE};
ghost use Rattle.pgn_base.specs.declared.answers.Refusal.TheVariants.{Aborted};
ghost use Rattle.pgn_answers.specs.declared.block_state.BlockState.TheVariants.{Failed, Idle};
ghost use Rattle.pgn_messages.specs.Server.{columns, completed, described, error, ready, row};
ghost use Rattle.pgn_requests.specs.Settings.{set_back, setting_name, settled_kept, value_in};
ghost use Rattle.pgn_requests.specs.Settled.{settled_tag, version_text};
ghost use Rattle.pgn_messages.specs.Served.{discard_answer, discard_error, settled_done, settled_rows, statuses};
ghost use Rattle.pgn_messages.specs.Turns.{heard};

use crate::Bytes;
use crate::statuses::put_statuses;
use crate::telling::put_reads;
use crate::wordings::{service_version, tag_of};
use pgn_answers::BlockState;
use pgn_base::{Copied, PID_BASE, Refusal, SessionNo};
use pgn_model::Item;
use pgn_requests::{Setting, Settings, Settled, setting_name};
use std::alloc::{AllocError, Global};

/// What is told where something is done, and the settings after it.
#[derive(Drop)]
pub struct Done {
    pub bytes: Bytes,
    pub settings: Settings,
}

/// The answer to what is settled, where it is done, and the settings after it.
pub fn done_of(
    alloc: Global,
    seat: SessionNo,
    settled: &Settled,
    settings: &Settings,
    state: BlockState,
) -> Result<Done, AllocError>
    ensures told { IfOk result (λ done. done.bytes
        ≡ settled_done seat settled.now settings.entry.now state) }
    ensures kept { IfOk result (λ done. done.settings
        ≡ settled_kept settled.now settings.entry.now) }
{
    let front = front_of(alloc, seat, settled, settings)?;
    let Ok(after) = settled_copy(alloc, settings, settled) else {
        drop(front);
        return Err(AllocError);
    };
    finished(front, settings, after, state)
}

// Its row, where it has one, and its end.
fn front_of(
    alloc: Global,
    seat: SessionNo,
    settled: &Settled,
    settings: &Settings,
) -> Result<Bytes, AllocError>
    ensures { IfOk result (λ bytes. bytes ≡ settled_rows seat settled.now settings.entry.now
        ++ completed (settled_tag settled.now)) }
{
    let mut bytes = Bytes::new(alloc);
    put_rows(alloc, &mut bytes, seat, settled, settings)?;
    bytes.put_completed(tag_of(settled))?;
    Ok(bytes)
}

// An answer so far, and behind it the settings that changed, and ReadyForQuery.
fn finished(
    front: Bytes,
    before: &Settings,
    after: Settings,
    state: BlockState,
) -> Result<Done, AllocError>
    ensures told { IfOk result (λ done. done.bytes ≡ front ++ statuses before.entry.now after
        ++ ready state) }
    ensures kept { IfOk result (λ done. done.settings ≡ after) }
{
    let mut bytes = front;
    let put = put_end(&mut bytes, before, &after, state);
    if put.is_err() {
        drop(bytes);
        drop(after);
        return Err(AllocError);
    }
    Ok(Done {
        bytes,
        settings: after,
    })
}

fn put_end(
    bytes: &mut Bytes,
    before: &Settings,
    after: &Settings,
    state: BlockState,
) -> Result<(), AllocError>
    ensures { OnOk result (bytes.new ≡ bytes.old ++ statuses before.entry.now after.entry.now
        ++ ready state) }
{
    put_statuses(bytes, before, after)?;
    bytes.put_ready(state)?;
    Ok(())
}

/// The answer to it in a failed block.
pub fn ignored(alloc: Global) -> Result<Bytes, AllocError>
    ensures { IfOk result (λ bytes. bytes ≡ error Aborted ++ ready Failed) }
{
    let mut bytes = Bytes::new(alloc);
    put_aborted(alloc, &mut bytes)?;
    bytes.put_ready(BlockState::Failed)?;
    Ok(bytes)
}

// The error that a failed block answers.
fn put_aborted(alloc: Global, bytes: &mut Bytes) -> Result<(), AllocError>
    ensures { OnOk result (bytes.new ≡ bytes.old ++ error Aborted) }
{
    let refusal = Refusal::Aborted;
    let put = bytes.put_error(alloc, &refusal);
    drop(refusal);
    put
}

// The row of what is settled, where it has one.
fn put_rows(
    alloc: Global,
    bytes: &mut Bytes,
    seat: SessionNo,
    settled: &Settled,
    settings: &Settings,
) -> Result<(), AllocError>
    ensures { OnOk result (bytes.new ≡ bytes.old
        ++ settled_rows seat settled.now settings.entry.now) }
{
    match settled {
        Settled::Shows { setting } => put_shown(bytes, *setting, settings),
        Settled::One => put_one(bytes),
        Settled::Version => put_version(bytes),
        Settled::Process => put_process(alloc, bytes, seat),
        _ => Ok(()),
    }
}

// A setting, and its value.
fn put_shown(bytes: &mut Bytes, setting: Setting, settings: &Settings) -> Result<(), AllocError>
    ensures { OnOk result (bytes.new ≡ bytes.old
        ++ (columns (setting_name setting) ++ row (value_in settings.entry.now.now setting))) }
{
    bytes.put_columns(setting_name(setting).as_bytes())?;
    bytes.put_row(settings.value(setting))?;
    Ok(())
}

fn put_one(bytes: &mut Bytes) -> Result<(), AllocError>
    ensures { OnOk result (bytes.new ≡ bytes.old
        ++ (described (codes "?column?") 23 4 ++ row (codes "1"))) }
{
    bytes.put_described(b"?column?", 23, 4)?;
    bytes.put_row(b"1")?;
    Ok(())
}

fn put_version(bytes: &mut Bytes) -> Result<(), AllocError>
    ensures { OnOk result (bytes.new ≡ bytes.old
        ++ (columns (codes "version") ++ row version_text)) }
{
    bytes.put_columns(b"version")?;
    bytes.put_row(service_version())?;
    Ok(())
}

// The process number of a seat's clients.
fn put_process(alloc: Global, bytes: &mut Bytes, seat: SessionNo) -> Result<(), AllocError>
    ensures { OnOk result (bytes.new ≡ bytes.old
        ++ (described (codes "pg_backend_pid") 23 4 ++ row (decimal (PID_BASE + seat)))) }
{
    let mut number = Bytes::new(alloc);
    number.put_decimal(u64::from(PID_BASE + seat.get()))?;
    bytes.put_described(b"pg_backend_pid", 23, 4)?;
    bytes.put_row(number.as_slice())?;
    Ok(())
}

/// The answer to `DISCARD ALL` outside of a block, by the items of its two lines, and the settings after it.
pub fn discard_done(
    alloc: Global,
    settings: &Settings,
    refused: &[Item],
    unlistened: &[Item],
) -> Result<Done, AllocError>
    ensures told { IfOk result (λ done. done.bytes
        ≡ discard_answer Idle settings.entry.now
        (flat_map heard refused.now ++ flat_map heard unlistened.now)) }
    ensures kept { IfOk result (λ done. done.settings ≡ set_back settings.entry.now) }
{
    let front = discard_front(alloc, refused, unlistened)?;
    let Ok(after) = copy_set_back(alloc, settings) else {
        drop(front);
        return Err(AllocError);
    };
    finished(front, settings, after, BlockState::Idle)
}

// Its end, and what is heard meanwhile.
fn discard_front(alloc: Global, refused: &[Item], unlistened: &[Item]) -> Result<Bytes, AllocError>
    ensures { IfOk result (λ bytes. bytes ≡ completed (codes "DISCARD ALL")
        ++ (flat_map heard refused.now ++ flat_map heard unlistened.now)) }
{
    let mut bytes = Bytes::new(alloc);
    bytes.put_completed(b"DISCARD ALL")?;
    put_both(&mut bytes, refused, unlistened)?;
    Ok(bytes)
}

/// The answer to it in a block.
pub fn discard_in_block(
    alloc: Global,
    refused: &[Item],
    unlistened: &[Item],
) -> Result<Bytes, AllocError>
    ensures { IfOk result (λ bytes. bytes ≡ discard_error
        ++ (flat_map heard refused.now ++ flat_map heard unlistened.now) ++ ready Failed) }
{
    let mut bytes = Bytes::new(alloc);
    bytes.put_error_of(
        b"25001",
        b"DISCARD ALL cannot run inside a transaction block",
    )?;
    put_both(&mut bytes, refused, unlistened)?;
    bytes.put_ready(BlockState::Failed)?;
    Ok(bytes)
}

/// The answer to it in a failed block.
pub fn discard_ignored(
    alloc: Global,
    refused: &[Item],
    unlistened: &[Item],
) -> Result<Bytes, AllocError>
    ensures { IfOk result (λ bytes. bytes ≡ error Aborted
        ++ (flat_map heard refused.now ++ flat_map heard unlistened.now) ++ ready Failed) }
{
    let mut bytes = Bytes::new(alloc);
    put_aborted(alloc, &mut bytes)?;
    put_both(&mut bytes, refused, unlistened)?;
    bytes.put_ready(BlockState::Failed)?;
    Ok(bytes)
}

// What is heard by the items of two lines.
fn put_both(bytes: &mut Bytes, first: &[Item], second: &[Item]) -> Result<(), AllocError>
    ensures { OnOk result (bytes.new ≡ bytes.old
        ++ (flat_map heard first.now ++ flat_map heard second.now)) }
{
    put_reads(bytes, first)?;
    put_reads(bytes, second)?;
    Ok(())
}

// A copy of the settings, with what is settled done.
fn settled_copy(
    alloc: Global,
    settings: &Settings,
    settled: &Settled,
) -> Result<Settings, AllocError>
    ensures { IfOk result (λ next. next ≡ settled_kept settled.now settings.entry.now) }
{
    let mut next = settings.copy(alloc)?;
    let done = next.settle(alloc, settled);
    if done.is_err() {
        drop(next);
        return Err(AllocError);
    }
    Ok(next)
}

// A copy of the settings, as at the start.
fn copy_set_back(alloc: Global, settings: &Settings) -> Result<Settings, AllocError>
    ensures { IfOk result (λ next. next ≡ set_back settings.entry.now) }
{
    let mut next = settings.copy(alloc)?;
    let done = next.set_back(alloc);
    if done.is_err() {
        drop(next);
        return Err(AllocError);
    }
    Ok(next)
}
