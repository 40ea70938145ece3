ghost use Rattle.std.specs.Prelude.{◌≡◌, IfOk, OnOk, OnErr};
ghost use Rattle.pgn_live.specs.Playing.{IsNoneTold};
ghost use Rattle.pgn_live.specs.Telling.{IsTold, HasToldFor, told_of};
ghost use Rattle.pgn_outlet.specs.Passes.{IsPassOf, knows};
ghost use Rattle.pgn_outlet.specs.Rule.{MayPush, with_sent};

use crate::relay::Live;
use pgn_base::{Copied, SessionNo};
use pgn_model::{Item, Items};
use pgn_outlet::{Came, OutletPass};
use std::alloc::{AllocError, Global};
use std::sync::Wait;

// A place for each session by its number, which is at most 256.
pub(crate) const PLACES: usize = 257;

/// What sessions tell by that share a thread: a pass for their numbers, and how many items of each were told.
#[derive(Drop)]
pub(crate) struct Telling {
    pub(crate) pass: OutletPass<Items>,
    pub(crate) told: [usize; PLACES],
}

impl Telling {
    /// One by which nothing was told.
    pub(crate) fn new(pass: OutletPass<Items>) -> Telling
        ensures pass { result.pass ≡ pass }
        ensures none { IsNoneTold result.told }
    {
        Telling {
            pass,
            told: [0; PLACES],
        }
    }
}

/// How many items of a session were told.
pub(crate) fn told_so_far(told: &[usize; PLACES], session: SessionNo) -> usize
    ensures { result ≡ told_of told.now session }
{
    told[session.get() as usize]
}

/// Pushes what a session has recorded and not told yet, and answers whether anything was told. Where memory does not suffice nothing is pushed,
/// and the next call tries again from the same item on.
pub(crate) fn tell<R: Wait, H>(
    live: &Live<'_, R, H>,
    telling: &mut Telling,
    session: SessionNo,
    items: &[Item],
) -> bool
    requires own { IsPassOf live.now.outlet.now telling.old.pass }
    requires may { MayPush (knows telling.old.pass) session }
    requires told { IsTold session items.now (told_of telling.old.told session) (knows telling.old.pass) }
    ensures own { IsPassOf live.now.outlet.now telling.new.pass }
    ensures told { IsTold session items.now (told_of telling.new.told session) (knows telling.new.pass) }
    ensures alone { HasToldFor session telling.old.told telling.new.told (knows telling.old.pass) (knows telling.new.pass) }
{
    let told = told_so_far(&telling.told, session);
    if told >= items.len() {
        return false;
    }
    match push_copies(live, &mut telling.pass, session, &items[told..]) {
        Ok(()) => {
            telling.told[session.get() as usize] = items.len();
            true
        }
        Err(_) => false,
    }
}

// Pushes copies of items in one piece.
fn push_copies<R: Wait, H>(
    live: &Live<'_, R, H>,
    pass: &mut OutletPass<Items>,
    session: SessionNo,
    items: &[Item],
) -> Result<(), AllocError>
    requires own { IsPassOf live.now.outlet.now pass.old }
    requires may { MayPush (knows pass.old) session }
    ensures own { IsPassOf live.now.outlet.now pass.new }
    ensures pushed { OnOk result (knows pass.new ≡ with_sent (knows pass.old) (record { session = session; what = items.now })) }
    ensures refused { OnErr result (knows pass.new ≡ knows pass.old) }
{
    let what = copies(live.alloc, items)?;
    live.outlet.push(live.rt, pass, Came { session, what })
}

// Copies of items.
fn copies(alloc: Global, items: &[Item]) -> Result<Items, AllocError>
    ensures { IfOk result (λ copies. copies ≡ items.now) }
{
    let mut copies = Vec::with_capacity(alloc, items.len())?;
    for item in items {
        copies.push(item.copy(alloc)?)?;
    }
    Ok(Items::from_items(copies))
}
