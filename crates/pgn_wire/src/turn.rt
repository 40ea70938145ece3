ghost use Rattle.std.specs.Prelude.{◌≡◌, ℕ, ◌+◌, ◌<◌, ◌≤◌, true, [], List, Option, Ok, Err, Some, IfOk, IfErr, IfSome, OnOk};
ghost use Rattle.pgn_base.specs.Outside.{Rose};
ghost use Rattle.pgn_language.specs.Inputs.{note_lines_of};
ghost use Rattle.pgn_queries.specs.declared.wire_fault.WireFault.{WireFault};
ghost use Rattle.pgn_queries.specs.Client.{OfKnown};
ghost use Rattle.pgn_queries.specs.Queries.{Gives, HasPassed, QueriesAre};
ghost use Rattle.pgn_session.specs.declared.session.Session.{Session};
ghost use Rattle.pgn_session.specs.Open.{HasStood};
ghost use Rattle.pgn_wire.specs.Serving.{HasAnsweredAll, IsReady, IsServing, TurnsInto, WhereAsked};

use crate::WireEnd;
use crate::answering::one_query;
use crate::host::Host;
use pgn_base::{Sink, Source};
use pgn_hub::{Hub, PassView};
use pgn_language::ScriptLine;
use pgn_queries::{NoQuery, Queries};
use pgn_session::Session;
use std::alloc::Global;
use std::sync::Wait;

// Reads the next query and answers it, and says whether there was one.
pub(crate) fn take_turn<P: PassView + Drop, H: Hub<Pass = P>, R: Wait, S: Source, K: Sink>(
    host: &Host<'_, H, R>,
    session: &mut Session<P>,
    queries: &mut Queries,
    source: &mut S,
    sink: &mut K,
) -> Result<bool, WireEnd>
    requires ready { IsReady (H.is_pass host.now.hub.now) (H.shape host.now.hub.now) P.known
        session.old }
    requires notes { note_lines_of session.old.section.lines ≡ queries.old.notes }
    requires most { queries.old.most ≡ session.old.section.note_lines }
    ensures own { H.is_pass host.now.hub.now session.new.pass }
    ensures stood { HasStood (H.shape host.now.hub.now) P.known session.new }
    ensures ready { OnOk result (IsReady (H.is_pass host.now.hub.now) (H.shape host.now.hub.now)
        P.known session.new) }
    ensures answered { IfErr result (λ end. WhereAsked end
        (HasAnsweredAll (H.shape host.now.hub.now) P.known session.new)) }
    ensures counted { result ≡ Ok true → queries.new.queries ≡ queries.old.queries + 1 }
    ensures few { result ≡ Ok true → queries.new.queries ≤ 4294967294 }
    // Whatever it was given first: what held of it so far goes on to hold, or it has ended.
    ensures turned { (start : Session P) (bytes held : Option (List ℕ))
        → IsServing start session.old queries.old bytes (S.left source.old) held (K.held sink.old)
        → TurnsInto result start session.new queries.new bytes (S.left source.new) held (K.held sink.new) }
    ensures read { result ≡ Err WireEnd.Read → Rose (S.faults source.old) (S.faults source.new) }
    ensures write { result ≡ Err WireEnd.Write → Rose (K.faults sink.old) (K.faults sink.new) }
    ensures source_later { S.faults source.old ≤ S.faults source.new }
    ensures source_rose { S.faults source.old < S.faults source.new → result ≡ Err WireEnd.Read }
    ensures sink_later { K.faults sink.old ≤ K.faults sink.new }
    ensures sink_rose { K.faults sink.old < K.faults sink.new → result ≡ Err WireEnd.Write }
{
    match next_query(host.alloc, queries, source) {
        Ok(Some(line)) => match one_query(host, session, line, sink) {
            Ok(()) => Ok(true),
            Err(end) => Err(end),
        },
        Ok(None) => Ok(false),
        Err(end) => Err(end),
    }
}

// The next query of the client.
fn next_query<S: Source>(
    alloc: Global,
    queries: &mut Queries,
    source: &mut S,
) -> Result<Option<ScriptLine>, WireEnd>
    ensures next { IfOk result (λ next. OfKnown (Gives queries.old queries.new next)
        (S.left source.old) (S.left source.new)) }
    ensures passed { IfOk result (λ next. IfSome next (HasPassed queries.old queries.new)) }
    ensures fault { (fault : WireFault) → result ≡ Err (WireEnd.Bad fault)
        → IfSome (S.left source.old) (λ bytes. QueriesAre queries.old bytes [] (Some fault)) }
    ensures other { result ≡ Err WireEnd.Write → ⊥ }
    ensures later { S.faults source.old ≤ S.faults source.new }
    ensures failed { result ≡ Err WireEnd.Read → Rose (S.faults source.old) (S.faults source.new) }
    ensures rose { S.faults source.old < S.faults source.new → result ≡ Err WireEnd.Read }
{
    match queries.next(alloc, source) {
        Ok(next) => Ok(next),
        Err(NoQuery::Fault(fault)) => Err(WireEnd::Bad(fault)),
        Err(NoQuery::Failed) => Err(WireEnd::Read),
        Err(NoQuery::Memory) => Err(WireEnd::Memory),
    }
}
