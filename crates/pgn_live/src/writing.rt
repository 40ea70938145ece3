#![tactic(auto, using(crate::proofs::WriteLaws::write_laws))]

ghost use Rattle.std.specs.Prelude.{◌≡◌, true, false, [], ◌∷◌, IfOk, OnOk, All};
ghost use Rattle.pgn_live.specs.Lives.{HasWritten, IsFresh, IsNumber, StandIn, came_lines, tagged};
ghost use Rattle.pgn_model.specs.Text.{joined};
ghost use Rattle.pgn_outlet.specs.Passes.{HasAll, IsPassOf, knows};
ghost use Rattle.pgn_text.specs.Rendering.{Puts};

use crate::relay::{Live, Relay};
use pgn_base::{SessionNo, Sink};
use pgn_language::Section;
use pgn_model::{Item, Items};
use pgn_outlet::{Came, OutletPass};
use pgn_text::{LineCursor, Out, lines_of};
use std::alloc::{AllocError, Global};
use std::sync::Wait;
use std::thread;

// Looks at an empty queue give way at first, so many of them; behind those the writer arms its bell, looks once more, and dozes. So what
// comes in a steady flow is written in pieces, and not in a race for each line. More of them make a lone line late.
const LOOKS_BEFORE_DOZE: u32 = 4;

// Who writes what comes: a pass that takes, its place in the lines of each section, and the text that it keeps back.
#[derive(Drop)]
pub(crate) struct Writer {
    pub(crate) pass: OutletPass<Items>,
    pub(crate) cursors: Vec<LineCursor>,
    pub(crate) out: Out,
}

// A place before the first line for each section.
pub(crate) fn cursors_for(alloc: Global, count: usize) -> Result<Vec<LineCursor>, AllocError>
    ensures { IfOk result (λ cursors. All IsFresh cursors.items) }
{
    let mut cursors = Vec::with_capacity(alloc, count)?;
    for _ in 0..count {
        cursors.push(LineCursor::new())?;
    }
    Ok(cursors)
}

/// Gives out the lines of items of a session, each behind the session's number.
pub fn write_items<K: Sink>(
    sink: &mut K,
    out: &mut Out,
    sections: &[Section],
    session: SessionNo,
    items: &[Item],
)
    ensures { Puts K.held K.faults sink.old out.old sink.new out.new (tagged sections.now (record { session = session; what = items.now } ∷ [])) }
{
    let number = session.get();
    let lines = lines_of(sections, number);
    out.items(sink, lines, &mut LineCursor::new(), Some(number), items);
}

// Gives out the lines of what came of a session.
fn write_came<K: Sink>(sections: &[Section], writer: &mut Writer, sink: &mut K, came: &Came<Items>)
    requires stand { StandIn sections.now writer.old.cursors.items }
    ensures pass { writer.new.pass ≡ writer.old.pass }
    ensures stand { StandIn sections.now writer.new.cursors.items }
    ensures puts { Puts K.held K.faults sink.old writer.old.out sink.new writer.new.out
        (joined (came_lines sections.now came.now)) }
    ensures number { IsNumber came.now.session }
{
    let number = came.session.get();
    let lines = lines_of(sections, number);
    let place = (number - 1) as usize;
    if place >= writer.cursors.len() {
        writer.out.items(
            sink,
            lines,
            &mut LineCursor::new(),
            Some(number),
            came.what.as_slice(),
        );
        return;
    }
    writer.out.items(
        sink,
        lines,
        &mut writer.cursors[place],
        Some(number),
        came.what.as_slice(),
    );
}

// Takes what has come and gives its lines out; where nothing has, it sends what is kept back. Answers whether anything had come.
fn write_next<R: Wait, H, K: Sink>(live: &Live<'_, R, H>, writer: &mut Writer, sink: &mut K) -> bool
    requires own { IsPassOf live.now.outlet.now writer.old.pass }
    requires takes { (knows writer.old.pass).takes ≡ true }
    requires stand { StandIn live.now.sections.now writer.old.cursors.items }
    ensures own { IsPassOf live.now.outlet.now writer.new.pass }
    ensures takes { (knows writer.new.pass).takes ≡ true }
    ensures stand { StandIn live.now.sections.now writer.new.cursors.items }
    ensures wrote { HasWritten K.held K.faults live.now.sections.now
        writer.old writer.new sink.old sink.new }
    ensures has_all { result ≡ false → HasAll (knows writer.new.pass) }
    ensures sent { result ≡ false → OnOk writer.new.out.so_far (writer.new.out.kept ≡ []) }
{
    match live.outlet.take(live.rt, &mut writer.pass) {
        Some(came) => {
            write_came(live.sections, writer, sink, &came);
            true
        }
        None => {
            writer.out.send(sink);
            false
        }
    }
}

// Writes what comes until the sessions are done and nothing is left for now.
pub(crate) fn write_until<R: Wait, H, K: Sink>(
    live: &Live<'_, R, H>,
    writer: &mut Writer,
    sink: &mut K,
)
    requires own { IsPassOf live.now.outlet.now writer.old.pass }
    requires takes { (knows writer.old.pass).takes ≡ true }
    requires stand { StandIn live.now.sections.now writer.old.cursors.items }
    ensures own { IsPassOf live.now.outlet.now writer.new.pass }
    ensures takes { (knows writer.new.pass).takes ≡ true }
    ensures stand { StandIn live.now.sections.now writer.new.cursors.items }
    ensures wrote { HasWritten K.held K.faults live.now.sections.now
        writer.old writer.new sink.old sink.new }
{
    let mut empty = 0;
    for _ in live.rt.forever() {
        if write_next(live, writer, sink) {
            empty = 0;
            continue;
        }
        if live.relay.has_ended() {
            return;
        }
        empty = wait_for_more(live.rt, live.relay, empty);
    }
    unreachable!()
}

// Waits behind a look at an empty queue: it gives way behind the first such looks, arms the bell behind the next one, and dozes behind the
// one that found nothing all the same. So many such looks are counted before it; answers how many are with it.
fn wait_for_more<R: Wait>(rt: &R, relay: &Relay, empty: u32) -> u32 {
    if empty < LOOKS_BEFORE_DOZE {
        thread::yield_now();
        return empty + 1;
    }
    if empty == LOOKS_BEFORE_DOZE {
        relay.arm();
        return empty + 1;
    }
    relay.doze(rt);
    LOOKS_BEFORE_DOZE
}

// Writes all that is left, and sends what is kept back.
pub(crate) fn write_rest<R: Wait, H, K: Sink>(
    live: &Live<'_, R, H>,
    writer: &mut Writer,
    sink: &mut K,
)
    requires own { IsPassOf live.now.outlet.now writer.old.pass }
    requires takes { (knows writer.old.pass).takes ≡ true }
    requires stand { StandIn live.now.sections.now writer.old.cursors.items }
    ensures own { IsPassOf live.now.outlet.now writer.new.pass }
    ensures wrote { HasWritten K.held K.faults live.now.sections.now
        writer.old writer.new sink.old sink.new }
    ensures has_all { HasAll (knows writer.new.pass) }
    ensures sent { OnOk writer.new.out.so_far (writer.new.out.kept ≡ []) }
{
    for _ in live.rt.forever() {
        if !write_next(live, writer, sink) {
            return;
        }
    }
    unreachable!()
}
