ghost use Rattle.std.specs.Prelude.{◌≡◌, ◌-◌, List, map, filter_map, IfOk, OnOk, All};
ghost use Rattle.pgn_journal.specs.declared.tx.Tx.{Tx};
ghost use Rattle.pgn_reading.specs.Bare.{bare, bare_item};
ghost use Rattle.pgn_reading.specs.Merged.{ShowsJournal, IsShownIn, finished};
ghost use Rattle.pgn_reading.specs.Slots.{IsPartOf, IsFilled, HasPlaced, IsWidened};

use pgn_base::{DbOid, FIRST_XID, Notes, SessionNo, Xid};
use pgn_journal::{Fate, Tx};
use pgn_model::{Item, Items, Trace};
use std::alloc::{AllocError, Global};
use std::mem;

/// The journal that the traces show: each transaction that some trace shows as finished, in order of their numbers. Its notifications
/// move there, and the traces keep none of them. Where the traces show no journal, nothing is said of the result. The error is that
/// memory did not suffice; nothing is then said of the traces.
pub fn merge(alloc: Global, traces: &mut [Trace]) -> Result<Vec<Tx>, AllocError>
    ensures merged { (journal : List Tx) → ShowsJournal journal traces.old
        → IfOk result (λ merged. merged.items ≡ journal) }
    ensures bare { OnOk result (traces.new ≡ map bare traces.old) }
{
    let mut slots = Vec::new(alloc);
    for trace in traces.iter_mut() {
        place_all(alloc, &mut slots, trace)?;
    }
    taken(alloc, slots)
}

// Puts each transaction that a trace shows into its place, with its notifications.
fn place_all(
    alloc: Global,
    slots: &mut Vec<Option<Tx>>,
    trace: &mut Trace,
) -> Result<(), AllocError>
    ensures placed { OnOk result ((journal : List Tx) → IsPartOf journal slots.old.items
        → All (IsShownIn journal trace.old.session trace.old.db) trace.old.items
        → HasPlaced journal trace.old.session trace.old.db trace.old.items slots.old.items slots.new.items) }
    ensures bare { OnOk result (trace.new ≡ bare trace.old) }
{
    let mut items = mem::replace(&mut trace.items, Items::new(alloc)).into_items();
    let placed = place_each(alloc, slots, trace.session, trace.db, items.as_mut_slice());
    drop(mem::replace(&mut trace.items, Items::from_items(items)));
    placed
}

// Puts each transaction that items of a session's trace show into its place, with its notifications.
fn place_each(
    alloc: Global,
    slots: &mut Vec<Option<Tx>>,
    session: SessionNo,
    db: DbOid,
    items: &mut [Item],
) -> Result<(), AllocError>
    ensures placed { OnOk result ((journal : List Tx) → IsPartOf journal slots.old.items
        → All (IsShownIn journal session db) items.old
        → HasPlaced journal session db items.old slots.old.items slots.new.items) }
    ensures bare { OnOk result (items.new ≡ map bare_item items.old) }
{
    for item in items.iter_mut() {
        let Some(shown) = finished_of(alloc, session, db, item)? else {
            continue;
        };
        place(slots, shown)?;
    }
    Ok(())
}

// The number and the transaction that an item shows as finished, with its notifications, of which the item keeps none. More than can
// be counted have no place in memory.
fn finished_of(
    alloc: Global,
    session: SessionNo,
    db: DbOid,
    item: &mut Item,
) -> Result<Option<(Xid, Tx)>, AllocError>
    ensures shown { IfOk result (λ shown. shown ≡ finished session db item.old) }
    ensures bare { OnOk result (item.new ≡ bare_item item.old) }
{
    match item {
        Item::Publish { xid, notes } => {
            let Ok(queued) = u32::try_from(notes.as_slice().len()) else {
                return Err(AllocError);
            };
            let notes = mem::replace(notes, Notes::new(alloc));
            Ok(Some((
                *xid,
                Tx {
                    session,
                    db,
                    notes,
                    queued,
                    fate: Fate::Committed,
                },
            )))
        }
        Item::QueueFull { full, notes } => {
            let notes = mem::replace(notes, Notes::new(alloc));
            Ok(Some((
                full.xid,
                Tx {
                    session,
                    db,
                    notes,
                    queued: full.queued,
                    fate: Fate::Aborted,
                },
            )))
        }
        _ => Ok(None),
    }
}

// Puts a transaction into its place.
fn place(slots: &mut Vec<Option<Tx>>, shown: (Xid, Tx)) -> Result<(), AllocError>
    ensures { OnOk result (IsFilled slots.old.items slots.new.items (shown.0 - FIRST_XID) shown.1) }
{
    let (xid, tx) = shown;
    let place = xid.get().saturating_sub(FIRST_XID) as usize;
    widen(slots, place)?;
    slots[place] = Some(tx);
    Ok(())
}

// Makes places up to this one, if they are not there.
fn widen(slots: &mut Vec<Option<Tx>>, place: usize) -> Result<(), AllocError>
    ensures { OnOk result (IsWidened slots.old.items slots.new.items place) }
{
    while slots.len() <= place {
        slots.push(None)?;
    }
    Ok(())
}

// What stands in the places, in order.
fn taken(alloc: Global, slots: Vec<Option<Tx>>) -> Result<Vec<Tx>, AllocError>
    ensures { IfOk result (λ txs. txs.items ≡ filter_map (λ slot. slot) slots.items) }
{
    let mut txs = Vec::with_capacity(alloc, slots.len())?;
    for slot in slots {
        let Some(tx) = slot else {
            continue;
        };
        txs.push(tx)?;
    }
    Ok(txs)
}
