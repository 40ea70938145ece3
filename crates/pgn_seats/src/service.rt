use crate::Inbox;
use pgn_messages::Saying;
use pgn_outlet::{Bell, Outlet};
use std::alloc::Global;

/// What all desks of a service have in common: what they run on, the hub, what they are asked by, what they tell by, and the bell of who
/// takes that.
#[derive(Drop)]
pub struct Service<'a, H, R> {
    pub rt: &'a R,
    pub alloc: Global,
    pub hub: &'a H,
    /// The inbox of each seat.
    pub inboxes: &'a [Inbox],
    pub outbox: &'a Outlet<Saying>,
    pub bell: &'a Bell,
}
