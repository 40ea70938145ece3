ghost use Rattle.std.specs.Prelude.{◌≡◌, ◌+◌, ◌<◌, ◌≤◌, None, Some, [], ◌∷◌, ◌++◌, drop, flat_map, length, map, IfOk, OnOk, OnErr};
ghost use Rattle.pgn_outlet.specs.Passes.{IsPassOf, knows};
ghost use Rattle.pgn_outlet.specs.Rule.{MayPush};
ghost use Rattle.pgn_seats.specs.Serving.{HasPushedFor};
ghost use Rattle.pgn_seats.specs.Working.{HasSaid};
ghost use Rattle.pgn_messages.specs.Sayings.{signs_told};
ghost use Rattle.pgn_messages.specs.Served.{discard_answer, discarded, told_answer};
ghost use Rattle.pgn_messages.specs.Turns.{farewell, heard};

use crate::Service;
use pgn_answers::BlockState;
use pgn_base::SessionNo;
use pgn_messages::{Asked, Parting, Saying, tell_answer, tell_discard, tell_parting, tell_reads};
use pgn_outlet::{Came, OutletPass};
use pgn_requests::Settings;
use pgn_session::Session;
use std::alloc::{AllocError, Global};
use std::sync::Wait;

// Tells the client of a query the answer, once its line is the session's item of this place.
pub(crate) fn say_answer<P, H, R: Wait>(
    service: &Service<'_, H, R>,
    session: &Session<P>,
    from: usize,
    query: &Asked,
    tells: &mut OutletPass<Saying>,
) -> Result<(), AllocError>
    requires own { IsPassOf service.now.outbox.now tells.old }
    requires may { MayPush (knows tells.old) session.now.section.no }
    requires shown { from < length session.now.items.items }
    ensures own { IsPassOf service.now.outbox.now tells.new }
    ensures alone { HasPushedFor session.now.section.no (knows tells.old) (knows tells.new) }
    ensures said { OnOk result (HasSaid session.now.section.no
        (map Some
        (told_answer query.now (drop (from + 1) session.now.items.items) session.now.block.state))
        (knows tells.old) (knows tells.new)) }
    ensures unsaid { OnErr result (knows tells.new ≡ knows tells.old) }
{
    let items = session.items.as_slice();
    let state = session.block.state();
    let bytes = tell_answer(service.alloc, query, &items[from + 1..], state)?;
    say(service, session.section.no, bytes, tells)
}

// Tells what was heard of reads: they are the session's items behind the first so many.
pub(crate) fn say_heard<P, H, R: Wait>(
    service: &Service<'_, H, R>,
    session: &Session<P>,
    from: usize,
    tells: &mut OutletPass<Saying>,
) -> Result<(), AllocError>
    requires own { IsPassOf service.now.outbox.now tells.old }
    requires may { MayPush (knows tells.old) session.now.section.no }
    requires within { from ≤ length session.now.items.items }
    ensures own { IsPassOf service.now.outbox.now tells.new }
    ensures alone { HasPushedFor session.now.section.no (knows tells.old) (knows tells.new) }
    ensures said { OnOk result (HasSaid session.now.section.no
        (map Some (flat_map heard (drop from session.now.items.items))) (knows tells.old)
        (knows tells.new)) }
    ensures unsaid { OnErr result (knows tells.new ≡ knows tells.old) }
{
    let items = session.items.as_slice();
    let bytes = tell_reads(service.alloc, &items[from..])?;
    say(service, session.section.no, bytes, tells)
}

// Tells a client why the server ends the conversation, if it does, and its end.
pub(crate) fn say_end<H, R: Wait>(
    service: &Service<'_, H, R>,
    no: SessionNo,
    parting: Parting,
    tells: &mut OutletPass<Saying>,
) -> Result<(), AllocError>
    requires own { IsPassOf service.now.outbox.now tells.old }
    requires may { MayPush (knows tells.old) no }
    ensures own { IsPassOf service.now.outbox.now tells.new }
    ensures alone { HasPushedFor no (knows tells.old) (knows tells.new) }
    ensures said { OnOk result (HasSaid no (map Some (farewell parting) ++ None ∷ [])
        (knows tells.old) (knows tells.new)) }
    ensures unsaid { OnErr result (knows tells.new ≡ knows tells.old) }
{
    let bytes = tell_parting(service.alloc, parting)?;
    let saying = Saying { bytes, ends: true };
    push_saying(service, no, saying, tells)
}

// Tells these bytes, where there are any.
pub(crate) fn say<H, R: Wait>(
    service: &Service<'_, H, R>,
    no: SessionNo,
    bytes: Vec<u8>,
    tells: &mut OutletPass<Saying>,
) -> Result<(), AllocError>
    requires own { IsPassOf service.now.outbox.now tells.old }
    requires may { MayPush (knows tells.old) no }
    ensures own { IsPassOf service.now.outbox.now tells.new }
    ensures alone { HasPushedFor no (knows tells.old) (knows tells.new) }
    ensures said { OnOk result (HasSaid no (map Some bytes.items) (knows tells.old)
        (knows tells.new)) }
    ensures unsaid { OnErr result (knows tells.new ≡ knows tells.old) }
{
    if bytes.is_empty() {
        drop(bytes);
        return Ok(());
    }
    let saying = Saying { bytes, ends: false };
    push_saying(service, no, saying, tells)
}

// Pushes for a number, and rings the writer's bell behind that.
fn push_saying<H, R: Wait>(
    service: &Service<'_, H, R>,
    no: SessionNo,
    saying: Saying,
    tells: &mut OutletPass<Saying>,
) -> Result<(), AllocError>
    requires own { IsPassOf service.now.outbox.now tells.old }
    requires may { MayPush (knows tells.old) no }
    ensures own { IsPassOf service.now.outbox.now tells.new }
    ensures alone { HasPushedFor no (knows tells.old) (knows tells.new) }
    ensures said { OnOk result (HasSaid no (signs_told saying) (knows tells.old)
        (knows tells.new)) }
    ensures unsaid { OnErr result (knows tells.new ≡ knows tells.old) }
{
    let came = Came {
        session: no,
        what: saying,
    };
    service.outbox.push(service.rt, tells, came)?;
    service.bell.ring();
    Ok(())
}

// What a client is told of `DISCARD ALL`, whose lines stand among the session's items from this place on, by the state of the block before
// them; and does what that does to the settings. Of the lines themselves nothing is heard.
pub(crate) fn discard_bytes<P>(
    alloc: Global,
    settings: &mut Settings,
    state: BlockState,
    session: &Session<P>,
    from: usize,
) -> Result<Vec<u8>, AllocError>
    requires within { from ≤ length session.now.items.items }
    ensures told { IfOk result (λ bytes. bytes.items ≡ discard_answer state settings.old
        (flat_map heard (drop from session.now.items.items))) }
    ensures kept { OnOk result (settings.new ≡ discarded state settings.old) }
{
    let items = session.items.as_slice();
    tell_discard(alloc, settings, state, &items[from..], &[])
}
