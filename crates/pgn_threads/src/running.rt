ghost use Rattle.std.specs.Prelude.{◌≡◌, map, OnOk, OnErr, All, Any};
ghost use Rattle.pgn_session.specs.Runs.{HasGivenUp, HasStopped, IsReady, IsOver, script_of};

use crate::hub_sessions::HubSessions;
use pgn_hub::{Hub, PassView};
use pgn_session::Session;
use std::alloc::{AllocError, Global};
use std::sync::Wait;
use std::thread::Threads;
use std::time::Clock;

/// Runs sessions until all are over: each has a thread of its own, while threads can be had; sessions for which no thread can be started
/// take turns on the one that they share. The error is that memory did not suffice for some session. Each is then over or has given
/// up: it has raised its end flag, so that no other waits for it.
pub fn run_sessions<
    P: PassView + Send + Drop,
    H: Hub<Pass = P> + Sync,
    R: Threads + Wait + Clock + Sync,
>(rt: &R, alloc: Global, hub: &H, sessions: &mut [Session<P>]) -> Result<(), AllocError>
    requires ready { All (IsReady (H.is_pass hub.now) (H.shape hub.now) P.known) sessions.old }
    ensures over { OnOk result (All (IsOver (H.is_pass hub.now) (H.shape hub.now) P.known) sessions.new) }
    ensures scripts { map script_of sessions.new ≡ map script_of sessions.old }
    ensures stopped { All (HasStopped (H.is_pass hub.now) (H.shape hub.now) P.known) sessions.new }
    ensures gave_up { OnErr result (Any (HasGivenUp P.known) sessions.new) }
{
    let work = HubSessions { rt, alloc, hub };
    pgn_workers::run(rt, &work, sessions, &mut ())
}
