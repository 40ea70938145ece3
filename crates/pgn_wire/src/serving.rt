ghost use Rattle.std.specs.Prelude.{◌≡◌, ◌<◌, ◌≤◌, [], ◌∷◌, Err, None, OnOk, IfErr};
ghost use Rattle.pgn_language.specs.declared.scenario.ScriptLine.{ScriptLine};
ghost use Rattle.pgn_base.specs.Outside.{Rose};
ghost use Rattle.pgn_session.specs.Standing.{IsServedBy};
ghost use Rattle.pgn_session.specs.Whole.{HasRest};
ghost use Rattle.pgn_session.specs.Open.{BeginsEmpty, HasStood, IsSameClient};
ghost use Rattle.pgn_wire.specs.Serving.{AsksBy, HasAnsweredAll, HasEnded, HasWritten, IsReady, WhereAsked};

use crate::WireEnd;
use crate::host::Host;
use crate::quitting::quit;
use crate::turn::take_turn;
use pgn_base::{Sink, Source};
use pgn_hub::{Hub, PassView};
use pgn_queries::Queries;
use pgn_session::{Doing, Session};
use std::alloc::Global;
use std::sync::Wait;

/// Serves a client until it ends: each query is answered before the next is read. The session's script is a `\quit`, before which the
/// queries are put; as many of them may notify as its section says. At the end the session is over; after an error its trace so far is lawful.
pub fn serve_wire<P: PassView + Drop, H: Hub<Pass = P>, R: Wait, S: Source, K: Sink>(
    rt: &R,
    alloc: Global,
    hub: &H,
    session: &mut Session<P>,
    source: &mut S,
    sink: &mut K,
) -> Result<(), WireEnd>
    requires own { H.is_pass hub.now session.old.pass }
    requires served { IsServedBy (H.shape hub.now) session.old.section session.old.plan }
    requires rested { HasRest (H.shape hub.now) P.known session.old }
    requires begins { BeginsEmpty session.old }
    ensures own { H.is_pass hub.now session.new.pass }
    ensures same { IsSameClient session.old session.new }
    // The trace is lawful so far at every end, and at the end of the client's bytes no read was left out.
    ensures stood { HasStood (H.shape hub.now) P.known session.new }
    ensures over { OnOk result (session.new.doing ≡ Doing.Over) }
    ensures left { OnOk result ((P.known session.new.pass).mark ≡ None) }
    ensures rested { OnOk result (HasRest (H.shape hub.now) P.known session.new) }
    // Where the client's bytes are at fault or the source failed, each query before has its whole answer.
    ensures answered { IfErr result (λ end. WhereAsked end
        (HasAnsweredAll (H.shape hub.now) P.known session.new)) }
    // What stands written, and which queries were asked, by how it ended.
    ensures written { HasWritten result (K.held sink.old) (K.held sink.new) session.new.section
        session.new.items.items }
    ensures asked { (last : ScriptLine) → session.old.section.lines ≡ last ∷ []
        → AsksBy result (S.left source.old) last session.new.section }
    ensures read { result ≡ Err WireEnd.Read → Rose (S.faults source.old) (S.faults source.new) }
    ensures write { result ≡ Err WireEnd.Write → Rose (K.faults sink.old) (K.faults sink.new) }
    ensures source_later { S.faults source.old ≤ S.faults source.new }
    ensures source_rose { S.faults source.old < S.faults source.new → result ≡ Err WireEnd.Read }
    ensures sink_later { K.faults sink.old ≤ K.faults sink.new }
    ensures sink_rose { K.faults sink.old < K.faults sink.new → result ≡ Err WireEnd.Write }
{
    let host = Host { rt, alloc, hub };
    match converse(&host, session, source, sink) {
        Ok(()) => match quit(rt, alloc, hub, session) {
            Ok(()) => Ok(()),
            Err(_) => Err(WireEnd::Memory),
        },
        Err(end) => Err(end),
    }
}

// Answers query after query, until there is none.
fn converse<P: PassView + Drop, H: Hub<Pass = P>, R: Wait, S: Source, K: Sink>(
    host: &Host<'_, H, R>,
    session: &mut Session<P>,
    source: &mut S,
    sink: &mut K,
) -> Result<(), WireEnd>
    requires ready { IsReady (H.is_pass host.now.hub.now) (H.shape host.now.hub.now) P.known
        session.old }
    requires begins { BeginsEmpty session.old }
    ensures own { H.is_pass host.now.hub.now session.new.pass }
    ensures stood { HasStood (H.shape host.now.hub.now) P.known session.new }
    ensures ready { OnOk result (IsReady (H.is_pass host.now.hub.now) (H.shape host.now.hub.now)
        P.known session.new) }
    ensures answered { IfErr result (λ end. WhereAsked end
        (HasAnsweredAll (H.shape host.now.hub.now) P.known session.new)) }
    ensures ended { HasEnded result session.old session.new (S.left source.old) (K.held sink.old)
        (K.held sink.new) }
    ensures read { result ≡ Err WireEnd.Read → Rose (S.faults source.old) (S.faults source.new) }
    ensures write { result ≡ Err WireEnd.Write → Rose (K.faults sink.old) (K.faults sink.new) }
    ensures source_later { S.faults source.old ≤ S.faults source.new }
    ensures source_rose { S.faults source.old < S.faults source.new → result ≡ Err WireEnd.Read }
    ensures sink_later { K.faults sink.old ≤ K.faults sink.new }
    ensures sink_rose { K.faults sink.old < K.faults sink.new → result ≡ Err WireEnd.Write }
{
    let mut queries = Queries::new(host.alloc, session.section.note_lines);
    for _query in 0..u32::MAX {
        match take_turn(host, session, &mut queries, source, sink) {
            Ok(true) => {}
            Ok(false) => return Ok(()),
            Err(end) => return Err(end),
        }
    }
    unreachable!()
}
